// The run over a trace: each record's step on what the last one left, and its line, while there is room for one.
// The table is not looked at again: whether it is well formed is known once, and no step changes that.
ghost use Rattle.std.specs.Prelude.{◌≡◌, ◌+◌, ◌≤◌, ◌<◌, [], length, get_or, take};
ghost use Rattle.definition.specs.Lines.{line_of, short_line};
ghost use Rattle.definition.specs.Image.{well_formed};
ghost use Rattle.definition.specs.Table.{table_step};
ghost use Rattle.definition.specs.Trace.{found, max_class, step_of};
ghost use Rattle.definition.specs.Replay.{left, following, play_from, play_board};
ghost use Rattle.types.specs.Meaning.{given_of};
ghost use Rattle.trace.specs.Meaning.{told_of};
ghost use Rattle.lines.specs.Puts.{Put};
ghost use Rattle.layer.specs.Steps.{lent, gave};
ghost use Rattle.layer.specs.Replaying.{Leaves, Plays, room_at, Turned, Acted, FetchTold, ReadIn, step_by};

use super::{Progress, fetches, steps};
use calls::signed;
use lines::Line;
use trace::reader;
use trace::records::{Board, Record, RecordKind, board_at};
use types::{Answer, Driver, Process, Refusal, Registers};

// The line of what a step gave.
fn put_given(out: &mut [u8], at: usize, given: Result<Answer, Refusal>) -> usize
    requires { at + short_line ≤ length out.old }
    ensures { Put (line_of (given_of given)) at out.old out.new result }
{
    lines::put_answer(out, at, given.map_err(u32::from))
}

// What a run works on, and whether its table is well formed, which no step changes. The trace and the lines go beside it, each with a place: the slices are
// the caller's, and the places are what each record moves.
#[derive(Drop)]
pub(crate) struct Lent<'a> {
    pub(crate) table: &'a mut [u32],
    pub(crate) memory: &'a mut [u8],
    pub(crate) flash: &'a [u8],
    pub(crate) formed: bool,
    ghost known: { formed ≡ well_formed table.now },
}

impl<'a> Lent<'a> {
    ghost use Rattle.layer.specs.Lending.{lent_in, kept};

    // The call of a record.
    fn call(&mut self, fields: [u32; Record::FIELDS]) -> Result<Answer, Refusal>
        requires { get_or fields 1 0 ≤ max_class }
        ensures makes { table_step (step_by RecordKind.Call fields []) (lent_in self.old) ≡ gave (given_of result) (lent_in self.new) }
        ensures same { kept self.new ≡ kept self.old }
    {
        let [process, class, r0, r1, r2, r3] = fields;
        let registers = Registers { r0, r1, r2, r3 };
        steps::call(
            self.table,
            self.memory,
            self.formed,
            Process(process),
            class as u8,
            registers,
        )
    }

    // The deposit of a record. The table goes by a name of its own, so that the check knows that it comes back as it was.
    fn deposit(&mut self, fields: [u32; Record::FIELDS], bytes: &[u8]) -> Result<Answer, Refusal>
        ensures makes { table_step (step_by RecordKind.Deposit fields bytes.now) (lent_in self.old) ≡ gave (given_of result) (lent_in self.new) }
        ensures same { kept self.new ≡ kept self.old }
    {
        let [process, driver, slot, offset, _, _] = fields;
        let table = &mut *self.table;
        steps::deposit(
            table,
            self.memory,
            self.formed,
            Process(process),
            Driver(driver),
            slot,
            offset,
            bytes,
        )
    }

    // The line of a fetch, by where it ends. It changes nothing, so that it can be made again where there is no room for its line.
    fn put_fetch(&self, fields: [u32; Record::FIELDS], out: &mut [u8], used: usize) -> Option<usize>
        requires { used + short_line ≤ length out.old }
        ensures { FetchTold (step_by RecordKind.Fetch fields []) (lent_in self.now) used out.old result out.new }
    {
        let [process, driver, slot, offset, length, _] = fields;
        let fetched = steps::fetch(
            self.table,
            self.memory,
            self.flash,
            self.formed,
            Process(process),
            Driver(driver),
            slot,
            offset,
            length,
        );
        let place = match fetched {
            Ok(place) => place,
            Err(refusal) => return Some(put_given(out, used, Err(refusal))),
        };
        let part = fetches::part(self.memory, self.flash, place);
        if !lines::part_fits(out.len() - used, part.len()) {
            return None;
        }
        Some(lines::put_part(out, used, part))
    }

    // A record that was read: where its line ends, if there is room for it. Its bytes go on to a deposit as a part of the trace.
    fn act(&mut self, trace: &[u8], read: Record, out: &mut [u8], used: usize) -> Option<usize>
        requires { (used + short_line ≤ length out.old) × ReadIn trace.now read }
        ensures acted { Acted (step_of (told_of trace.now read)) (lent_in self.old) used out.old result (lent_in self.new) out.new }
        ensures same { kept self.new ≡ kept self.old }
    {
        let [first, second, third, fourth, fifth, sixth] = read.fields;
        let given = match read.kind {
            RecordKind::Call => self.call(read.fields),
            RecordKind::Event => steps::event(
                self.table,
                self.formed,
                Process(first),
                Driver(second),
                third,
                fourth,
                fifth,
                sixth,
            ),
            RecordKind::Resume => steps::resume(self.table, self.formed, Process(first)),
            RecordKind::Deposit => self.deposit(read.fields, &trace[read.from..read.next]),
            RecordKind::Fetch => return self.put_fetch(read.fields, out, used),
            RecordKind::Latch => {
                steps::latch(
                    self.table,
                    self.formed,
                    Driver(first),
                    signed::of_word(second),
                )
            }
        };
        Some(put_given(out, used, given))
    }

    // The record at a place: where the next one stands and the lines end, or how far the run has come, if it stops here. Every line but a part's fits
    // where there is room for one.
    #[tactic(auto, using(crate::proofs::TurnLaws::turned_full))]
    fn take_turn(
        &mut self,
        trace: &[u8],
        at: usize,
        out: &mut [u8],
        used: usize,
    ) -> Result<(usize, usize), Progress>
        requires { (at < length trace.now) × (used ≤ length out.old) }
        ensures turned { Turned trace.now (lent_in self.old) at used out.old result (lent_in self.new) out.new }
        ensures same { kept self.new ≡ kept self.old }
    {
        if out.len() - used < Line::ROOM {
            return Err(Progress::Paused(at, used));
        }
        let Ok(read) = reader::next_at(trace, at) else {
            return Err(Progress::Ended(lines::put_broken(out, used, at)));
        };
        match self.act(trace, read, out, used) {
            Some(end) => Ok((read.next, end)),
            None => Err(Progress::Paused(at, used)),
        }
    }

    // The records from a place on, after lines that end at `from`.
    pub(crate) fn records(
        &mut self,
        trace: &[u8],
        at: usize,
        out: &mut [u8],
        from: usize,
    ) -> Progress
        requires { from ≤ length out.old }
        ensures leaves { Leaves (following (take from out.old) (play_from trace.now (lent_in self.old) at (room_at from out.old))) out.old result (lent_in self.new) out.new }
        ensures same { kept self.new ≡ kept self.old }
    {
        let mut i = at;
        let mut used = from;
        // No index is counted: a record says where the next one stands.
        while i < trace.len() {
            match self.take_turn(trace, i, out, used) {
                Ok((next, end)) => (i, used) = (next, end),
                Err(progress) => return progress,
            }
        }
        Progress::Ended(used)
    }
}

// What is lent goes by name here: before the start it is not known whether the table is well formed, and so there is no `Lent`.

// The board's words, and the records after them; a board that is not good ends the run. What start has left is not checked again.
fn start_on(
    trace: &[u8],
    next: usize,
    board: &[u32],
    table: &mut [u32],
    memory: &mut [u8],
    flash: &[u8],
    out: &mut [u8],
) -> Progress
    requires { short_line ≤ length out.old }
    ensures { Leaves (play_board trace.now (lent table.old memory.old flash.now) (left (length out.old)) (found board.now next)) out.old result (lent table.new memory.new flash.now) out.new }
{
    let given = super::start(table, board);
    let used = put_given(out, 0, given);
    let formed = match given {
        Ok(_) => true,
        Err(refusal) if refusal == Refusal::NoBoard => return Progress::Ended(used),
        Err(_) => false,
    };
    let mut lent = Lent {
        table,
        memory,
        flash,
        formed,
    };
    lent.records(trace, next, out, used)
}

// The whole trace, from its board on, whose words `board_at` counts.
#[tactic(auto, using(crate::proofs::BeginLaws::none_told, crate::proofs::BeginLaws::none_lent, crate::proofs::BeginLaws::none_lines))]
pub(crate) fn begin(
    trace: &[u8],
    table: &mut [u32],
    memory: &mut [u8],
    flash: &[u8],
    out: &mut [u8],
) -> Progress
    ensures { Plays trace.now (lent table.old memory.old flash.now) 0 out.old result (lent table.new memory.new flash.now) out.new }
{
    if out.len() < Line::ROOM {
        return Progress::Paused(0, 0);
    }
    let mut board = [0u32; Board::MAX_WORDS];
    match board_at(trace, &mut board) {
        Ok((count, next)) => start_on(
            trace,
            next,
            &board[..count as usize],
            table,
            memory,
            flash,
            out,
        ),
        // There is room for the largest board, so that it is broken or cut.
        Err(_) => Progress::Ended(lines::put_broken(out, 0, 0)),
    }
}
