// Rows of bytes and of numbers: compared, cleared, copied.
ghost use Rattle.std.specs.Prelude.{◌≡◌, ◌+◌, ◌≤◌, length, replicate};
ghost use Rattle.std.specs.List.{list_all};
ghost use Rattle.std.proofs.Math.Seq.{paste};
ghost use Rattle.dictionary_layout.specs.Dictionary.{same_row};

// Whether two rows of bytes are the same.
#[tactic(auto, using(crate::proofs::Equality::rows_equal))]
pub fn same_bytes(a: &[u8], b: &[u8]) -> bool
    ensures { result ≡ same_row a.now b.now }
{
    a == b
}

// Whether two rows of numbers are the same.
#[tactic(auto, using(crate::proofs::Equality::rows_equal))]
pub fn same_numbers(a: &[u32], b: &[u32]) -> bool
    ensures { result ≡ same_row a.now b.now }
{
    a == b
}

// Whether all of a row are one value.
pub fn all_are<T: PartialEq + Copy>(a: &[T], v: T) -> bool
    ensures { result ≡ list_all (λ x. T.eq x v) a.now }
{
    a.iter().all(|x| *x == v)
}

// Makes all bytes zero.
pub fn clear_bytes(a: &mut [u8])
    ensures { a.new ≡ replicate (length a.old) 0 }
{
    a.fill(0);
}

// Copies all of src into dst from the place at.
pub fn copy_at(dst: &mut [u8], at: usize, src: &[u8])
    requires { at + length src.now ≤ length dst.old }
    ensures { dst.new ≡ paste dst.old at src.now (length src.now) }
{
    for (i, b) in src.iter().enumerate() {
        dst[at + i] = *b;
    }
}
