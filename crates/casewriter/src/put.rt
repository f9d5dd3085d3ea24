// Numbers put into the front of a buffer, two bytes each, the higher first.
ghost use Rattle.std.specs.Prelude.{◌≡◌, ◌*◌, ◌≤◌, length};
ghost use Rattle.casewriter.specs.Encoding.{bytes_of};
ghost use Rattle.casewriter.specs.Writing.{over};

// Answers how many bytes that took. No `out.chunks_exact_mut(2).zip(ns)`: of a slice that lent out its chunks the proof
// learns the length, and not what was written.
pub(crate) fn put_all(out: &mut [u8], ns: &[u16]) -> usize
    requires { 2 * length ns.now ≤ length out.old }
    ensures size { result ≡ length (bytes_of ns.now) }
    ensures bytes { out.new ≡ over (bytes_of ns.now) out.old }
{
    for (k, n) in ns.iter().enumerate() {
        out[2 * k..2 * k + 2].copy_from_slice(&n.to_be_bytes());
    }
    2 * ns.len()
}
