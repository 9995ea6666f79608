// Text into a buffer: what the library's `bytes::copy` was to an older Rattle.

#![tactic(auto)]

ghost use Rattle.std.specs.Prelude.{◌≡◌, ◌++◌, ◌≤◌, length, take, drop};

// The text goes to the front of out, where it has room; how long it is.
pub fn copy(text: &[u8], out: &mut [u8]) -> usize
    requires { length text.now ≤ length out.old }
    ensures value { result ≡ length text.now }
    ensures out_after { out.new ≡ take (length text.now) text.now ++ drop (length text.now) out.old }
{
    let end = text.len();
    out[..end].copy_from_slice(text);
    end
}
