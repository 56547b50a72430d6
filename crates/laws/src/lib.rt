//! Laws of every legal history, in a user's words, by which a reader can check the model's definitions. Each function does
//! nothing: its contract is the law, and its proof is from the definitions of `dmatypes` alone. The laws speak of the events
//! of a history, what was asked and answered, and of no world.
#![tactic(auto)]

ghost use Rattle.laws.specs.Laws.{DevicesReachOnlyWhatIsMapped, FlushesEndReach, LiveMapsShareNoPage};
ghost use Rattle.laws.specs.Laws.{NoPageIsHandedOutUnreleased, StrictUnmapsEndReach};

/// A device reaches only frames that a map put into the domain it is attached to, with a right that the map gave.
pub fn devices_reach_only_what_is_mapped()
    ensures { DevicesReachOnlyWhatIsMapped }
{}

/// After a strict unmap answered, no DMA of any device reaches those frames by those pages until a map puts them there again.
pub fn strict_unmaps_end_reach()
    ensures { StrictUnmapsEndReach }
{}

/// In a lazy domain the same from the flush on.
pub fn flushes_end_reach()
    ensures { FlushesEndReach }
{}

/// Two live maps of a domain never share a page.
pub fn live_maps_share_no_page()
    ensures { LiveMapsShareNoPage }
{}

/// No page is handed out between its unmap and its release.
pub fn no_page_is_handed_out_unreleased()
    ensures { NoPageIsHandedOutUnreleased }
{}
