//! Laws of reassembly, for fragments in any order and with any repeats. Each function's contract is
//! one law; its body is empty.
ghost use Rattle.std.specs.Prelude.{List};
ghost use Rattle.segments.specs.Cells.{Bytes};
ghost use Rattle.capture.specs.declared.fragment.IpFragment.{IpFragment};
ghost use Rattle.ip_fragments.specs.Law.{HasTheFirst, IsOut, IsTheDatagram};

/// Each byte of a reassembled datagram is the first that arrived at its offset.
#[tactic(auto, using(crate::proofs::LawLemmas::out_first))]
pub fn each_byte_is_the_first_that_came()
    ensures { (fs : List IpFragment) (out : Bytes) → IsOut fs out → HasTheFirst fs out }
{}

/// If all the fragments are parts of one datagram, the reassembled datagram is that one.
#[tactic(auto, using(crate::proofs::LawLemmas::out_whole))]
pub fn what_is_handed_out_is_the_datagram()
    ensures { (fs : List IpFragment) (out : Bytes) → IsOut fs out → IsTheDatagram fs out }
{}
