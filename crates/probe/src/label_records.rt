// The lines of the records about the label store (document 10, "Records that a request brings", W-206). The caller has seen to the room of a line.
ghost use Rattle.std.specs.Prelude.{[], ◌≡◌, ◌+◌, ◌≤◌, length};
ghost use Rattle.wire.specs.Wire.{field};
ghost use Rattle.protocol.specs.Text.{numbers_line};
ghost use Rattle.protocol.specs.Records.{AR};
ghost use Rattle.protocol.specs.Relations.{PutsLine};
ghost use Rattle.host_records.specs.Lines.{line_room};
ghost use Rattle.probe.specs.LabelRecords.{bytes_line};

use host_records::buffer;
use protocol::output;

// AR: the mark alone.
pub(crate) fn put_area(out: &mut [u8], used: usize) -> usize
    requires { used + line_room ≤ length out.old }
    ensures { PutsLine used (numbers_line AR []) out.old out.new result }
{
    output::put_numbers(out, used, b'A', b'R', &[])
}

// AB (offset 2, length 2): those bytes of the store.
pub(crate) fn put_stored(bytes: &[u8], store: &[u8], out: &mut [u8], used: usize) -> usize
    requires { (6 ≤ length bytes.now) × (field bytes.now 2 2 + field bytes.now 4 2 ≤ 8192) × (length store.now ≡ 8192) × (used + line_room ≤ length out.old) }
    ensures { PutsLine used (bytes_line bytes.now store.now) out.old out.new result }
{
    let offset = wire::get(bytes, 2, 2) as usize;
    let length = wire::get(bytes, 4, 2) as usize;
    let start = output::put_columns(out, used, b'A', b'B', &[]);
    let end = buffer::put_some(out, start, &store[offset..], length);
    output::end_line(out, end)
}
