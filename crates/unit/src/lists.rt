//! Lists of bounded length that remember.

ghost use Rattle.std.specs.Prelude.{◌≡◌, ◌<◌, ◌≤◌, if◌then◌else◌, length, IsTrue};
ghost use Rattle.unit.specs.Lists.{IsNotAmong, is_there, with_entry};

use arrayvec::ArrayVec;

/// Remembers an entry, where `fill` says so: if it isn't there already it goes last, and a full list loses
/// its first one. Where `is_new` says that it isn't there, the list isn't looked through for it.
#[tactic(auto, unfolding(crate::specs::Lists::with_entry, crate::specs::Lists::IsNotAmong))]
pub(crate) fn remember<T: Copy + Default + PartialEq, const N: usize>(
    list: &mut ArrayVec<T, N>,
    entry: T,
    fill: bool,
    is_new: bool,
)
    requires some { 0 < N }
    requires new { IsTrue is_new → IsNotAmong T.eq entry list.old.items }
    ensures items { list.new.items ≡ (if fill then with_entry T.eq N entry list.old.items else list.old.items) }
    ensures few { length list.old.items ≤ N → length list.new.items ≤ N }
{
    if !fill || !is_new && list.contains(&entry) {
        return;
    }
    if list.is_full() {
        list.remove(0);
    }
    list.push(entry);
}

/// Whether an entry is in a list. Where `is_new` says that it isn't, the list isn't looked through for it.
#[tactic(auto, unfolding(crate::specs::Lists::is_there, crate::specs::Lists::IsNotAmong))]
pub(crate) fn is_there<T: PartialEq>(list: &[T], entry: &T, is_new: bool) -> bool
    requires { IsTrue is_new → IsNotAmong T.eq entry.now list.now }
    ensures { result ≡ is_there T.eq entry.now list.now }
{
    !is_new && list.contains(entry)
}
