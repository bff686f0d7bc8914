// A list in an array of fixed size.
ghost use Rattle.std.specs.Prelude.{◌≡◌, ◌≤◌, ◌++◌, length, take, replicate};

// The items of the list, as many as fit, and the filler after them.
pub fn padded<T: Copy, const N: usize>(filler: T, list: &[T]) -> [T; N]
    ensures is { result ≡ take N (list.now ++ replicate N filler) }
    ensures front { length list.now ≤ N → take (length list.now) result ≡ list.now }
{
    let count = list.len().min(N);
    let mut all = [filler; N];
    all[..count].copy_from_slice(&list[..count]);
    all
}
