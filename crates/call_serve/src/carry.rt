// What is to be done for a command, done.
ghost use Rattle.std.specs.Prelude.{◌≤◌, length};
ghost use Rattle.list_row.specs.Vertices.{row_bytes};
ghost use Rattle.table_rules.specs.Table.{Sound};
ghost use Rattle.call_judge.specs.Verdict.{Findings};
ghost use Rattle.call_serve.specs.Serving.{Carried};

use book::Cause;
use call_judge::Verdict;
use limits::TABLE_BYTES;

// Changes the table as the book changes, at the record that was found.
pub fn carry(t: &mut [u8; TABLE_BYTES], work: &mut [u8], v: Result<Verdict, Cause>)
    requires { Sound t.old × Findings v t.old × (row_bytes ≤ length work.old) }
    ensures { Carried v t.old t.new }
{
    match v {
        Err(_) => {}
        Ok(Verdict::Show(_, _)) => {}
        Ok(Verdict::Insert(k, site)) => table_change::insert(t, work, usize::from(k), site),
        Ok(Verdict::Delete(k, n)) => table_change::delete(t, work, usize::from(k), n),
        Ok(Verdict::Place(k, site)) => table_change::place(t, work, usize::from(k), site),
        Ok(Verdict::Stand(leg)) => table_change::stand(t, work, leg),
        Ok(Verdict::Begin(p)) => table_change::begin(t, p),
        Ok(Verdict::Follow(leg, _, n, _)) => table_change::follow(t, leg, n),
    }
}
