//! Planning a sheet of one kind, with lists of the kind's values lent.

ghost use Rattle.std.specs.Prelude.{◌≡◌, ◌≤◌, map, length, Ok};
ghost use Rattle.std.specs.List.{range_with_len};
ghost use Rattle.yard.specs.Batches.{listed};
ghost use Rattle.yard.specs.Runs.{end_of};
ghost use Rattle.yard.specs.Told.{told};
ghost use Rattle.books.specs.Law.{serial_from};
ghost use Rattle.books.specs.Whole.{stand};
ghost use Rattle.listings.specs.Laying.{listed_as};
ghost use Rattle.running.specs.Performed.{OpenedFor};
ghost use Rattle.running.specs.Run.{script_of, state_in, Keeps};
ghost use Rattle.dealing.specs.Lent.{SameRunLists};
ghost use Rattle.planner.specs.Opening.{OpenedIn};
ghost use Rattle.planner.specs.Plan.{planned, planned_batch};

use crate::calling::step_calls;
use arrayvec::ArrayVec;
use boards::shadow::ShadowBoard;
use dealing::opening::Opening;
use dealing::opening::lists::{RunLists, WorkLists};
use dealing::opening::making::open;
use listings::listing::list;
use listings::run_record::RunRecord;
use listings::slip::list_slip;
use running::run::Run;
use running::script::Script;
use sheets::lists::SheetLists;
use sheets::read::read;
use text::slip::Slip;
use yard::batch::{Batch, Move, Step};
use yard::board::Board;
use yard::full::{CELLS, CHOICES, LANES, MOVES, PAIRS, STEPS};
use yard::kind::Kind;
use yard::part::part;
use yard::refusal::Refusal;
use yard::run::{Answer, LaneRow, Outcome};

/// Lists of a kind's values to plan with: the changes of the cells, what the steps' cells held before, and an answer to each call.
#[derive(Drop)]
pub(crate) struct KindLists<'a, V: Copy> {
    pub changes: &'a mut [Option<V>],
    pub saved: &'a mut [V],
    pub answers: &'a mut [Result<Answer<V>, Refusal>],
    ghost changes_long: { 1024 ≤ length changes.now },
    ghost saved_long: { 1024 ≤ length saved.now },
    ghost answers_long: { 2048 ≤ length answers.now },
}

/// Plans a sheet of the kind `K`. The values of its cells go into a list of the caller's.
pub(crate) fn plan_sheet<K: Kind>(
    sheet: &[u8],
    values: &mut [K::Value],
    lists: &mut KindLists<K::Value>,
    listing: &mut [u8],
) -> Result<usize, Refusal>
    requires { length values.old ≡ 1024 }
    ensures { listed_as (told result) listing.new ≡ planned K.Kind.rules K.Kind.rows K.Kind.equals sheet.now listing.old }
{
    let mut moves = [Move::NONE; MOVES];
    let mut steps = [Step::NONE; STEPS];
    let mut choices = [0; CHOICES];
    let mut found = SheetLists {
        values,
        moves: &mut moves,
        steps: &mut steps,
        choices: &mut choices,
    };
    match read::<K>(sheet, &mut found) {
        Ok(counts) => {
            let batch = Batch {
                cells: counts.cells,
                share: counts.share,
                moves: part(&moves, 0, usize::from(counts.moves)),
                steps: part(&steps, 0, usize::from(counts.steps)),
                choices: part(&choices, 0, usize::from(counts.choices)),
            };
            let values = part(values, 0, usize::from(counts.cells));
            plan_batch::<K>(batch, values, lists, listing)
        }
        Err(fault) => list_slip(Slip::from(fault), listing),
    }
}

// Plans a batch on the values of its cells. They stay readable, since the run works on a shadow board over them.
fn plan_batch<K: Kind>(
    batch: Batch,
    values: &[K::Value],
    lists: &mut KindLists<K::Value>,
    listing: &mut [u8],
) -> Result<usize, Refusal>
    requires { length values.now ≤ 1024 }
    ensures { listed_as (told result) listing.new
        ≡ planned_batch K.Kind.rules K.Kind.rows K.Kind.equals (listed batch.entry) values.now listing.old }
{
    let mut board = ShadowBoard::new(lists.changes, values);
    plan_on::<K, ShadowBoard<K::Value>>(
        batch,
        values,
        &mut board,
        lists.saved,
        lists.answers,
        listing,
    )
}

// Opens a run on a board that holds the values, works it through, and lists it. The saved list and the answers come apart, since the changes beside them are lent to the board.
fn plan_on<K: Kind, B: Board<Value = K::Value>>(
    batch: Batch,
    values: &[K::Value],
    board: &mut B,
    saved: &mut [K::Value],
    answers: &mut [Result<Answer<K::Value>, Refusal>],
    listing: &mut [u8],
) -> Result<usize, Refusal>
    requires holds { B.Board.values board.old ≡ values.now }
    requires saved { 1024 ≤ length saved.old }
    requires answers { 2048 ≤ length answers.old }
    ensures { listed_as (told result) listing.new
        ≡ planned_batch K.Kind.rules K.Kind.rows K.Kind.equals (listed batch.entry) values.now listing.old }
{
    let mut line_up = [0; MOVES];
    let mut lanes = [LaneRow::NONE; LANES];
    let mut outcomes = [Outcome::NotEnded; MOVES];
    let mut lists = RunLists {
        line_up: &mut line_up,
        lanes: &mut lanes,
        outcomes: &mut outcomes,
    };
    let opening = open_run::<K, B>(batch, board, &mut lists)?;
    let dealt = lanes;
    let mut run = Run {
        script: Script {
            opening,
            batch,
            line_up: &line_up,
        },
        board,
        saved,
        lanes: &mut lanes,
        outcomes: &mut outcomes,
    };
    work_through::<K, B>(&mut run, answers)?;
    let record = RunRecord {
        opening,
        moves: batch.moves,
        line_up: &line_up,
        lanes: &dealt,
        outcomes: &outcomes,
        values,
    };
    list::<K, B>(record, board, listing)
}

// Opens a run, and lets the lists go that only opening works with.
fn open_run<K: Kind, B: Board<Value = K::Value>>(
    batch: Batch,
    board: &B,
    run: &mut RunLists,
) -> Result<Opening, Refusal>
    ensures opened { OpenedIn K.Kind.rules (listed batch.entry) (length (B.Board.values board.now)) result run.old run.new }
    ensures run { SameRunLists run.old run.new }
{
    let mut parents = [0; CELLS];
    let mut marks = [0; CELLS];
    let mut pairs = [0; PAIRS];
    let mut work = WorkLists {
        parents: &mut parents,
        marks: &mut marks,
        pairs: &mut pairs,
    };
    open::<K, B>(batch, board, run, &mut work)
}

// Steps each queue to its end, and then the rest list.
fn work_through<K: Kind, B: Board<Value = K::Value>>(
    run: &mut Run<K, B>,
    answers: &mut [Result<Answer<K::Value>, Refusal>],
) -> Result<(), Refusal>
    requires opened { OpenedFor K.Kind.rules run.old.script (B.Board.values run.old.board.now) run.old.outcomes.now run.old.lanes.now }
    requires saved { 1024 ≤ length run.old.saved.now }
    requires answers { 2048 ≤ length answers.old }
    ensures worked { result ≡ Ok tt }
    ensures whole { stand (B.Board.values run.new.board.now) (map end_of run.new.outcomes.now)
        ≡ serial_from K.Kind.rules (script_of run.old.script) (state_in B.Board.values run.old)
        (range_with_len 1 run.old.script.opening.queues) }
    ensures keeps { Keeps B.Board.around run.old run.new }
{
    let mut calls = ArrayVec::new();
    step_calls::<K, B>(run, &mut calls);
    run.perform(&calls, answers)
}
