ghost use Rattle.std.specs.Prelude.{◌≡◌, ◌≤◌, [], ◌∷◌, length, drop};
ghost use Rattle.vhdl_meaning.specs.Meaning.{assigned_by, waits_at};
ghost use Rattle.vhdl_meaning.specs.Lines.{CanPutAll, put_all, is_put};

use crate::lines::Lines;
use vhdl_text::Stmt;

// Assigns, where the statement is an assignment. Whether it is one.
fn put_one(stmt: &Stmt, lines: &mut [Lines]) -> bool
    requires { CanPutAll (assigned_by (stmt.now ∷ [])) lines.old }
    ensures told { result ≡ is_put stmt.now }
    ensures lines { lines.new ≡ put_all (assigned_by (stmt.now ∷ [])) lines.old }
{
    match stmt {
        Stmt::Put {
            stream,
            signal,
            bits,
        } => {
            lines[*stream as usize].put(*signal, bits);
            true
        }
        Stmt::Pause(_) => false,
        Stmt::Await(_) => false,
        Stmt::Stop => false,
    }
}

/// Runs these statements, from this place to the next wait, and gives the place of the wait. An assignment is made at once, since no
/// process reads a signal that a process assigns.
pub(crate) fn run_on(program: &[Stmt], from: usize, lines: &mut [Lines]) -> usize
    requires from { from ≤ length program.now }
    requires puts { CanPutAll (assigned_by (drop from program.now)) lines.old }
    ensures place { drop result program.now ≡ waits_at (drop from program.now) }
    ensures within { result ≤ length program.now }
    ensures lines { lines.new ≡ put_all (assigned_by (drop from program.now)) lines.old }
{
    let mut place = from;
    'run: while place < program.len() {
        if !put_one(&program[place], lines) {
            break;
        }
        place += 1;
    }
    place
}
