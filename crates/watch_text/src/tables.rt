//! The tables of a monitor.

ghost use Rattle.std.specs.Prelude.{◌≡◌, length};
ghost use Rattle.watch_text.specs.Text.{table_back, table_front, table_line, table_text, tables_text, type_line};

use crate::items::{EndLine, ItemLines, item_width};
use crate::marks::OwnName;
use physical_stream::{Head, Item};
use tydi_base::{List, Memory, Written, emit, parts};
use vhdl_text::Counted;

/// The lines of the tables of these streams.
#[derive(Clone, Copy)]
pub(crate) struct Tables<'a>(pub(crate) &'a [Head], pub(crate) &'a [List<Item>]);

impl Written for Tables<'_> {
    ghost text = { λ tables. tables_text tables.0.now tables.1.now };

    fn write_to(&self, out: &mut List<u8>) -> Result<(), Memory> {
        'tables: for (head, items) in self.0.iter().zip(self.1) {
            out.emit(&Table(head, items.as_slice()))?;
        }
        Ok(())
    }
}

impl Counted for Tables<'_> {
    fn count(&self) -> u64 {
        let mut count: u64 = 0;
        'tables: for (head, items) in self.0.iter().zip(self.1) {
            count = count.saturating_add(Table(head, items.as_slice()).count());
        }
        count
    }
}

/// The lines of the table of a stream that expects these items.
#[derive(Clone, Copy)]
struct Table<'a>(&'a Head, &'a [Item]);

impl<'a> Table<'a> {
    /// The lines of all its items.
    fn lines(&self) -> ItemLines<'a>
        ensures params { result.params.now ≡ self.now.0.now.params }
        ensures items { result.items.now ≡ self.now.1.now }
        ensures from { result.from ≡ 0 }
        ensures to { result.to ≡ length self.now.1.now }
    {
        ItemLines {
            params: &self.0.params,
            items: self.1,
            from: 0,
            to: self.1.len(),
        }
    }
}

impl Written for Table<'_> {
    ghost text = { λ table. table_text table.0.now table.1.now };

    fn write_to(&self, out: &mut List<u8>) -> Result<(), Memory> {
        let last = self.1.len();
        emit!(out; TableFront(self.0, last), self.lines(), TableBack(self.0, last))
    }
}

impl Counted for Table<'_> {
    fn count(&self) -> u64 {
        let last = self.1.len();
        parts!(
            TableFront(self.0, last),
            self.lines(),
            TableBack(self.0, last)
        )
        .count()
    }
}

/// The lines before the entries of a table whose end has this number.
#[derive(Clone, Copy)]
pub(crate) struct TableFront<'a>(pub(crate) &'a Head, pub(crate) usize);

impl Written for TableFront<'_> {
    ghost text = { λ front. table_front front.0.now front.1 };

    fn write_to(&self, out: &mut List<u8>) -> Result<(), Memory> {
        emit!(out; TypeLine(self.0, self.1), "\n", TableLine(self.0), "\n")
    }
}

impl Counted for TableFront<'_> {
    fn count(&self) -> u64 {
        parts!(TypeLine(self.0, self.1), "\n", TableLine(self.0), "\n").count()
    }
}

/// The line of the type of a table whose end has this number.
#[derive(Clone, Copy)]
struct TypeLine<'a>(&'a Head, usize);

impl Written for TypeLine<'_> {
    ghost text = { λ line. type_line line.0.now line.1 };

    fn write_to(&self, out: &mut List<u8>) -> Result<(), Memory> {
        let highest = item_width(&self.0.params) + 1;
        emit!(
            out;
            "  type ", OwnName(self.0, "items"), " is array (0 to ", self.1,
            ") of std_logic_vector(", highest, " downto 0);",
        )
    }
}

impl Counted for TypeLine<'_> {
    fn count(&self) -> u64 {
        let highest = item_width(&self.0.params) + 1;
        parts!(
            "  type ",
            OwnName(self.0, "items"),
            " is array (0 to ",
            self.1,
            ") of std_logic_vector(",
            highest,
            " downto 0);"
        )
        .count()
    }
}

/// The line before the entries of a table.
#[derive(Clone, Copy)]
pub(crate) struct TableLine<'a>(pub(crate) &'a Head);

impl Written for TableLine<'_> {
    ghost text = { λ line. table_line line.0.now };

    fn write_to(&self, out: &mut List<u8>) -> Result<(), Memory> {
        emit!(out; "  constant ", OwnName(self.0, "want"), " : ", OwnName(self.0, "items"), " := (")
    }
}

impl Counted for TableLine<'_> {
    fn count(&self) -> u64 {
        parts!(
            "  constant ",
            OwnName(self.0, "want"),
            " : ",
            OwnName(self.0, "items"),
            " := ("
        )
        .count()
    }
}

/// The lines after the items of a table, whose end has this number.
#[derive(Clone, Copy)]
pub(crate) struct TableBack<'a>(pub(crate) &'a Head, pub(crate) usize);

impl Written for TableBack<'_> {
    ghost text = { λ back. table_back back.0.now back.1 };

    fn write_to(&self, out: &mut List<u8>) -> Result<(), Memory> {
        emit!(out; EndLine(&self.0.params, self.1), "\n  );\n")
    }
}

impl Counted for TableBack<'_> {
    fn count(&self) -> u64 {
        parts!(EndLine(&self.0.params, self.1), "\n  );\n").count()
    }
}
