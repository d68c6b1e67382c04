//! The forms of a sum.

ghost use Rattle.std.specs.Prelude.{◌≡◌, ◌≤◌, ◌*◌};
ghost use Rattle.spec_machine.specs.Sums.{MAX_PARTS, sum_of_additions};
ghost use Rattle.sum_commands.specs.SumCommand.{sum_of};

use crate::groups::{SUM_ADD, SUM_SHORT_READ, SUM_TOLD_READ};
use index_groups::{SUM_READ, SUM_READ_WRITE, SUM_WRITE};

// How the parts of a sum are packed.
#[derive(Clone, Copy)]
pub(crate) enum Form {
    // 0xF080: heads of group 4, offset 4, length 4.
    Reads,
    // 0xF081: the same heads, and the data to be written behind them.
    Writes,
    // 0xF082: heads of group 4, offset 4, read length 4, write length 4, and the data behind them.
    ReadWrites,
    // 0xF083: heads as of 0xF080; each result is told with the length of its data, and the data is filled.
    ToldReads,
    // 0xF084: the same, and the data is not filled.
    ShortReads,
    // 0xF085: heads as the payload of AddDeviceNotification, 40 bytes; each result is told with the handle.
    Additions,
    // 0xF085: the same without the 16 reserved bytes.
    ShortAdditions,
    // 0xF086: handles.
    Deletions,
}

impl Form {
    ghost use Rattle.sum_commands.specs.Forms.{sum_in, head_width, front_width};

    // The form of the sum of n parts of a group.
    #[inline(always)]
    pub(crate) fn of(group: u32, n: u32, bytes: &[u8]) -> Form
        requires from { 0xF080 ≤ group }
        requires to { group ≤ 0xF086 }
        ensures { sum_in result n bytes.now ≡ sum_of group n bytes.now }
    {
        match group {
            SUM_READ => Form::Reads,
            SUM_WRITE => Form::Writes,
            SUM_READ_WRITE => Form::ReadWrites,
            SUM_TOLD_READ => Form::ToldReads,
            SUM_SHORT_READ => Form::ShortReads,
            SUM_ADD => Form::of_additions(n, bytes),
            _ => Form::Deletions,
        }
    }

    // The form of n additions, whose heads lack the reserved bytes where the data is just so long.
    fn of_additions(n: u32, bytes: &[u8]) -> Form
        ensures { sum_in result n bytes.now ≡ sum_of_additions n bytes.now }
    {
        if bytes.len() == 24 * n as usize {
            return Form::ShortAdditions;
        }
        Form::Additions
    }

    // How long a head is.
    pub(crate) fn head(self) -> usize
        ensures { result ≡ head_width self }
    {
        match self {
            Form::Reads | Form::Writes | Form::ToldReads | Form::ShortReads => 12,
            Form::ReadWrites => 16,
            Form::Additions => 40,
            Form::ShortAdditions => 24,
            Form::Deletions => 4,
        }
    }

    // How long a result is in the reply, with the length of its data where that is returned.
    pub(crate) fn front(self) -> usize
        ensures { result ≡ front_width self }
    {
        match self {
            Form::Reads | Form::Writes | Form::Deletions => 4,
            Form::ReadWrites | Form::ToldReads | Form::ShortReads => 8,
            Form::Additions | Form::ShortAdditions => 8,
        }
    }

    // How many bytes of a reply, of at most `len` and with results of `fronts`, are sure to come: a read is filled to the length
    // that it asks, and in the other forms a part may give less.
    pub(crate) fn sure_len(self, fronts: u32, len: usize) -> usize {
        match self {
            Form::Reads | Form::Writes | Form::ToldReads => len,
            Form::ReadWrites | Form::ShortReads => fronts as usize,
            Form::Additions | Form::ShortAdditions | Form::Deletions => len,
        }
    }

    // How long n heads are.
    pub(crate) fn heads(self, n: u32) -> usize
        requires { n ≤ MAX_PARTS }
        ensures len { result ≡ head_width self * n }
        ensures small { result ≤ 20000 }
    {
        match self {
            Form::Reads | Form::Writes | Form::ToldReads | Form::ShortReads => 12 * n as usize,
            Form::ReadWrites => 16 * n as usize,
            Form::Additions => 40 * n as usize,
            Form::ShortAdditions => 24 * n as usize,
            Form::Deletions => 4 * n as usize,
        }
    }

    // How long n results are in the reply, each with the length of its data where that is returned.
    pub(crate) fn fronts(self, n: u32) -> u32
        requires { n ≤ MAX_PARTS }
        ensures len { result ≡ front_width self * n }
        ensures small { result ≤ 4000 }
    {
        match self {
            Form::Reads | Form::Writes | Form::Deletions => 4 * n,
            Form::ReadWrites | Form::ToldReads | Form::ShortReads => 8 * n,
            Form::Additions | Form::ShortAdditions => 8 * n,
        }
    }
}
