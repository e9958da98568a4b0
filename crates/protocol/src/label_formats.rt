// The sizes of the records of `probe` that are about the label store (document 10, "Records that a request brings", W-206). A record's head has been found; a size over
// its limit is no record: none.
#![tactic(auto, unfolding(crate::proofs::FormatLaws::sizes))]

ghost use Rattle.std.specs.Prelude.{◌≡◌, ◌≤◌};
ghost use Rattle.protocol.specs.declared.formats.Format.TheVariants.{Probe};
ghost use Rattle.protocol.specs.Records.{mark_of, AR, AB};
ghost use Rattle.protocol.specs.Formats.{probe_size, Head};
ghost use Rattle.protocol.specs.Relations.{Sizes};

// The bytes of AR (size 4).
pub(crate) fn area_size(head: &[u8]) -> Option<usize>
    requires { Head Probe head.now × (mark_of head.now ≡ mark_of AR) }
    ensures { Sizes (probe_size head.now) result }
{
    let size = wire::get(head, 2, 4);
    if 8192 < size {
        return None;
    }
    Some(head.len())
}

// The bytes of AB (offset 2, length 2).
pub(crate) fn bytes_size(head: &[u8]) -> Option<usize>
    requires { Head Probe head.now × (mark_of head.now ≡ mark_of AB) }
    ensures { Sizes (probe_size head.now) result }
{
    let offset = wire::get(head, 2, 2);
    let length = wire::get(head, 4, 2);
    let end = offset + length;
    if 8192 < end {
        return None;
    }
    Some(head.len())
}
