//! The numbers of an opening.

ghost use Rattle.std.specs.Prelude.{◌≡◌};
ghost use Rattle.dealing.specs.Openings.{numbers_in};

use super::Opening;

impl Opening {
    pub fn cells(self) -> u16
        ensures { result ≡ (numbers_in self).cells }
    {
        self.cells
    }

    pub fn moves(self) -> u16
        ensures { result ≡ (numbers_in self).moves }
    {
        self.moves
    }

    pub fn steps(self) -> u16
        ensures { result ≡ (numbers_in self).steps }
    {
        self.steps
    }

    pub fn queues(self) -> u16
        ensures { result ≡ (numbers_in self).queues }
    {
        self.queues
    }
}
