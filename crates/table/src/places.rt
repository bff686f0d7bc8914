// The sheets of a table in their order.
ghost use Rattle.std.specs.Prelude.{◌≡◌, ℕ, ◌+◌, ◌<◌};
ghost use Rattle.table.specs.Places.{size_of, place_of, fits_in};
ghost use Rattle.table.specs.Walks.{Stands, next_sheet};

// How many sheets there are. The four counts are written out: the check knows no bound for a product over an iterator.
pub fn size_of(tops: [u8; 4]) -> usize
    ensures { result ≡ size_of tops }
{
    let [a, b, c, d] = tops;
    (usize::from(a) + 1) * ((usize::from(b) + 1) * ((usize::from(c) + 1) * (usize::from(d) + 1)))
}

// How many sheets come before a sheet, with the four counts written out too.
pub fn place_of(tops: [u8; 4], sheet: [u8; 4]) -> usize
    ensures { result ≡ place_of tops sheet }
{
    let [_, b, c, d] = tops;
    let [v, w, x, y] = sheet;
    let last = usize::from(d) + 1;
    let third = (usize::from(c) + 1) * last;
    let second = (usize::from(b) + 1) * third;
    usize::from(v) * second + (usize::from(w) * third + (usize::from(x) * last + usize::from(y)))
}

// Whether no value lies above its top.
pub fn fits_in(tops: [u8; 4], sheet: [u8; 4]) -> bool
    ensures { result ≡ fits_in tops sheet }
{
    tops.iter()
        .zip(sheet.iter())
        .all(|(top, value)| value <= top)
}

// The sheet after a sheet, and the first one after the last.
#[tactic(auto, unfolding(crate::specs::Walks::next_sheet))]
pub fn next(tops: [u8; 4], sheet: [u8; 4]) -> [u8; 4]
    ensures is { result ≡ next_sheet tops sheet }
    ensures stands { (i : ℕ) → Stands tops sheet i → i + 1 < size_of tops → Stands tops result (i + 1) }
{
    let [a, b, c, d] = tops;
    let [v, w, x, y] = sheet;
    if y < d {
        return [v, w, x, y + 1];
    }
    if x < c {
        return [v, w, x + 1, 0];
    }
    if w < b {
        return [v, w + 1, 0, 0];
    }
    if v < a {
        return [v + 1, 0, 0, 0];
    }
    [0; 4]
}
