//! Where bytes stand in a text.
ghost use Rattle.std.specs.Prelude.{◌≡◌, ◌+◌, ◌≤◌, length, IfSome};
ghost use Rattle.text_ops.specs.Strings.{first_place};

use memchr::memmem;

/// The first place of a text at which the bytes stand, found in a time that grows with both lengths alone.
#[tactic(auto, using(crate::proofs::Places::found_first))]
pub(crate) fn first_place(text: &[u8], sought: &[u8]) -> Option<usize>
    ensures place { result ≡ first_place text.now sought.now }
    ensures within { IfSome result (λ at. at + length sought.now ≤ length text.now) }
{
    memmem::find(text, sought)
}
