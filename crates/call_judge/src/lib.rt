// What each command is to be answered and done: the tests of its row in order, the list that it asks for, and where
// in the table its site stands or goes. Document 01, the column "Tests in order". `Sound` stands in the contracts, here
// and behind: the table is lent, and each change takes it from one sound table to the next, so a struct around it would
// be unwrapped in every clause and made anew for every command.
#![tactic(auto)]

pub mod change;
pub mod list;
pub mod tour;

ghost use Rattle.std.specs.Prelude.{◌≡◌, ◌≤◌, length};
ghost use Rattle.list_row.specs.Vertices.{row_bytes};
ghost use Rattle.table_rules.specs.Table.{Sound};
ghost use Rattle.call_judge.specs.Verdict.{answer_of, Decided};

use book::{Cause, Command};
use grid::{Leg, Position, Site};
use limits::TABLE_BYTES;

// What the record of a command says: accepted, refused for a cause, or answered by a list, that of the leg in the row
// that begins the work buffer, from one entry up to another. These are the definitions' three replies (`Reply`), each a
// record of its own, so that a `Result` would be no plainer.
#[derive(Clone, Copy)]
pub enum Answer {
    Done,
    Refused(Cause),
    Listed(Leg, usize, usize),
}

// What is to be done for a command that is not refused, with what was found: nothing but a list; a site inserted before
// a record; the record of a number deleted; a record given a new position; a standing leg set; a tour begun; a tour
// that goes on along a leg, with so many entries of its list left out, the site that ends it, and the list's length.
#[derive(Clone, Copy)]
pub enum Verdict {
    Show(Leg, usize),
    Insert(u16, Site),
    Delete(u16, u16),
    Place(u16, Site),
    Stand(Leg),
    Begin(Position),
    Follow(Leg, u16, u16, usize),
}

// What a verdict, or the cause of a refusal, is answered.
pub fn reply(judged: Result<Verdict, Cause>) -> Answer
    ensures { result ≡ answer_of judged }
{
    match judged {
        Err(cause) => Answer::Refused(cause),
        Ok(Verdict::Show(leg, k)) => Answer::Listed(leg, 0, k),
        Ok(Verdict::Insert(_, _)) => Answer::Done,
        Ok(Verdict::Delete(_, _)) => Answer::Done,
        Ok(Verdict::Place(_, _)) => Answer::Done,
        Ok(Verdict::Stand(_)) => Answer::Done,
        Ok(Verdict::Begin(_)) => Answer::Done,
        Ok(Verdict::Follow(leg, j, _, k)) => Answer::Listed(leg, usize::from(j), k),
    }
}

// The verdict on a command, or why it is refused.
pub fn judge(t: &[u8; TABLE_BYTES], work: &mut [u8], c: Command) -> Result<Verdict, Cause>
    requires { Sound t.now × (row_bytes ≤ length work.old) }
    ensures { Decided result c t.now work.new }
{
    match c {
        Command::Add(n, l) => change::add(t, n, l),
        Command::Remove(n) => change::remove(t, n),
        Command::Move(n, l) => change::place(t, n, l),
        Command::List(leg) => list::list(t, work, leg),
        Command::Stand(leg) => list::stand(t, leg),
        Command::Print => list::print(t, work),
        Command::Begin(p) => tour::begin(t, p),
        Command::Corner(p) => tour::corner(t, work, p),
    }
}
