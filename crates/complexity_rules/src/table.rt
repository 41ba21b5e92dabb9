ghost use Rattle.std.specs.Prelude.{ℕ, ◌↔◌, ◌≤◌, IsTrue};
ghost use Rattle.tydi_base.specs.Level.{IsLevel, LevelNumbers, number_of};
ghost use Rattle.physical_stream.specs.Rules.{Binds};
ghost use Rattle.complexity_rules.specs.Table.{IsMonotone, IsMonotoneRow, SaysWhatBinds};

use physical_stream::Rule;
use tydi_base::Level;

/// At which levels each rule binds: a row for each rule, and in it a cell for each level, the lowest first.
#[derive(Clone, Copy)]
pub struct RuleTable<const R: usize, const L: usize> {
    pub cells: [[bool; L]; R],
}

/// The rules that a stream keeps, from Hold to Tag, at the levels 1 to 8.
pub const BINDS: RuleTable<11, 8> = RuleTable {
    cells: [
        [true, true, true, true, true, true, true, true],
        [true, true, true, true, true, true, true, true],
        [true, true, true, true, true, true, true, false],
        [true, true, true, true, true, true, false, false],
        [true, true, true, true, true, false, false, false],
        [true, true, true, true, false, false, false, false],
        [true, true, true, false, false, false, false, false],
        [true, true, false, false, false, false, false, false],
        [true, false, false, false, false, false, false, false],
        [true, true, true, true, true, true, true, true],
        [true, true, true, true, true, true, true, true],
    ],
};

impl<const R: usize, const L: usize> RuleTable<R, L> {
    /// Whether each rule that binds at a level binds at every lower one.
    pub fn is_monotone(&self) -> bool
        ensures { IsTrue result ↔ IsMonotone self.now.cells }
    {
        'rows: for row in &self.cells {
            if !is_monotone_row(row) {
                return false;
            }
        }
        true
    }
}

/// Whether no true follows a false.
fn is_monotone_row(row: &[bool]) -> bool
    ensures { IsTrue result ↔ IsMonotoneRow row.now }
{
    let mut last = true;
    'cells: for cell in row {
        if *cell && !last {
            return false;
        }
        last = *cell;
    }
    true
}

/// The table of the rules is monotone: a rule that binds at a level binds at every lower one.
pub fn table_is_monotone()
    ensures { IsMonotone BINDS.cells }
{
    let monotone = BINDS.is_monotone();
    prove!(monotone);
}

/// The table of the rules says of each rule and each level whether the rule binds there.
pub fn table_says_what_binds()
    ensures { SaysWhatBinds BINDS.cells }
{}

/// Whether the rule binds at the level, read from the table.
#[inline]
pub fn binds(rule: Rule, level: Level) -> bool
    ensures binds { IsTrue result ↔ Binds rule level }
    ensures below { IsTrue result → (lower : LevelNumbers) → IsLevel lower → number_of lower ≤ number_of level → Binds rule lower }
{
    BINDS.cells[rule.number() as usize - 1][level.number() as usize - 1]
}
