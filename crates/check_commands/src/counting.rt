//! How many sets name each check.

ghost use Rattle.std.specs.Prelude.{◌≡◌, ◌≢◌, ◌+◌, ◌<◌, ◌==◌, ◌↔◌, ℕ, IsTrue, false, Some};
ghost use Rattle.check_commands.specs.Counts.{IsPlaceOf, counted, one_if};

/// How many sets name a check.
#[derive(Clone, Copy)]
pub struct CheckUse {
    /// The number of the check.
    pub check: u32,
    /// How many sets name it.
    pub count: u32,
}

/// Whether sets name a check.
pub fn is_counted(uses: &[CheckUse], check: u32) -> bool
    ensures { IsTrue result ↔ (0 < counted check uses.now) }
{
    match place_of(uses, check) {
        Some(_) => true,
        None => false,
    }
}

/// One set more names a check. `false` where there is no room for the check, or no number is as
/// large; then all is as it was.
pub fn rise(uses: &mut Vec<CheckUse>, check: u32) -> bool
    ensures more { IsTrue result → (other : ℕ) → counted other uses.new.items
        ≡ counted other uses.old.items + one_if (check == other) }
    ensures same { result ≡ false → uses.new.items ≡ uses.old.items }
{
    match place_of(uses, check) {
        Some(place) => rise_at(uses, place, check),
        None => come(uses, check),
    }
}

/// One set less names a check. A check that no set names any more goes.
pub fn fall(uses: &mut Vec<CheckUse>, check: u32)
    requires some { 0 < counted check uses.old.items }
    ensures less { (other : ℕ) → counted other uses.new.items + one_if (check == other)
        ≡ counted other uses.old.items }
{
    match place_of(uses, check) {
        Some(place) => fall_at(uses, place, check),
        None => unreachable!(),
    }
}

/// The place of a check that sets name.
fn place_of(uses: &[CheckUse], check: u32) -> Option<usize>
    ensures { IsPlaceOf uses.now check result }
{
    for i in 0..uses.len() {
        if is_use_of(uses[i], check) {
            return Some(i);
        }
    }
    None
}

/// Whether these are sets that name the check.
fn is_use_of(one: CheckUse, check: u32) -> bool
    ensures { IsTrue result ↔ ((one.check ≡ check) × (0 < one.count)) }
{
    one.check == check && one.count > 0
}

/// One set more names the check at a place.
fn rise_at(uses: &mut Vec<CheckUse>, place: usize, check: u32) -> bool
    requires place { IsPlaceOf uses.old.items check (Some place) }
    ensures more { IsTrue result → (other : ℕ) → counted other uses.new.items
        ≡ counted other uses.old.items + one_if (check == other) }
    ensures same { result ≡ false → uses.new.items ≡ uses.old.items }
{
    let one = uses[place];
    let Some(count) = one.count.checked_add(1) else {
        return false;
    };
    uses[place] = CheckUse { check, count };
    true
}

/// A set names a check that none named.
fn come(uses: &mut Vec<CheckUse>, check: u32) -> bool
    ensures more { IsTrue result → (other : ℕ) → counted other uses.new.items
        ≡ counted other uses.old.items + one_if (check == other) }
    ensures same { result ≡ false → uses.new.items ≡ uses.old.items }
{
    if uses.len() >= uses.capacity() {
        return false;
    }
    uses.push_reserved(CheckUse { check, count: 1 });
    true
}

/// One set less names the check at a place.
fn fall_at(uses: &mut Vec<CheckUse>, place: usize, check: u32)
    requires place { IsPlaceOf uses.old.items check (Some place) }
    ensures less { (other : ℕ) → counted other uses.new.items + one_if (check == other)
        ≡ counted other uses.old.items }
{
    let one = uses[place];
    if one.count == 1 {
        uses.swap_remove(place);
        return;
    }
    uses[place] = CheckUse {
        check,
        count: one.count - 1,
    };
}
