// Octets copied between the lent slices.
ghost use Rattle.std.specs.Prelude.{◌≡◌, ◌+◌, ◌≤◌, length, take, drop};
ghost use Rattle.std.proofs.Math.Seq.{paste};

// The octets of `source`, from its front, into `target` from `at` on. One by one: `copy_from_slice` would have the archive ask for `memmove`.
pub(crate) fn copy(source: &[u8], target: &mut [u8], at: usize)
    requires { at + length source.now ≤ length target.old }
    ensures { target.new ≡ paste target.old at source.now (length source.now) }
{
    for i in 0..source.len() {
        target[at + i] = source[i];
    }
}

// A part of the store to the front of the output.
pub(crate) fn copy_held(store: &[u8], at: usize, held: usize, output: &mut [u8])
    requires { (at + held ≤ length store.now) × (held ≤ length output.old) }
    ensures { output.new ≡ paste output.old 0 (take held (drop at store.now)) held }
{
    copy(&store[at..at + held], output, 0);
}
