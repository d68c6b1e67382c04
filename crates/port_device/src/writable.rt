//! Who may write to a port, and which of its symbols.

ghost use Rattle.std.specs.Prelude.{◌≡◌, ◌<◌, length, bytes_eq};
ghost use Rattle.std.specs.List.{All, list_all, list_any};
ghost use Rattle.spec_machine.specs.Writes as machine;
ghost use Rattle.type_layout.specs.Descriptions.{rights_of};
ghost use Rattle.symbol_table.specs.Rows.{symbol_of_row, symbols_of_rows};
ghost use Rattle.port_device.specs.Changed.{is_writable_row, is_writable_number};

use ads_base::NetId;
use symbol_table::SymbolRow;
use type_layout::Rights;

/// Whether the rights are more than those to read.
pub fn may_write(rights: Rights) -> bool
    ensures { result ≡ machine.may_write (rights_of rights) }
{
    match rights {
        Rights::Read => false,
        Rights::Write => true,
        Rights::Control => true,
    }
}

/// Whether the rights are those to control.
pub(crate) fn may_control(rights: Rights) -> bool
    ensures { result ≡ machine.may_control (rights_of rights) }
{
    match rights {
        Rights::Read => false,
        Rights::Write => false,
        Rights::Control => true,
    }
}

/// Whether a machine may write each of the symbols with these numbers.
pub(crate) fn may_write_all(rows: &[SymbolRow], numbers: &[u32], source: NetId) -> bool
    requires { All (λ n. n < length rows.now) numbers.now }
    ensures { result ≡ list_all (is_writable_number source.bytes (symbols_of_rows rows.now)) numbers.now }
{
    for number in numbers {
        if !is_writable(&rows[*number as usize], source) {
            return false;
        }
    }
    true
}

// A read-only symbol is written by nobody, and one with writers by these alone.
fn is_writable(row: &SymbolRow, source: NetId) -> bool
    ensures { result ≡ is_writable_row source.bytes (symbol_of_row row.now) }
{
    !row.read_only && (row.writers.len() == 0 || is_named(row.writers.as_slice(), source))
}

fn is_named(writers: &[NetId], source: NetId) -> bool
    ensures { result ≡ list_any (λ writer. bytes_eq source.bytes writer.bytes) writers.now }
{
    writers.iter().any(|writer| source.bytes.as_slice() == writer.bytes.as_slice())
}
