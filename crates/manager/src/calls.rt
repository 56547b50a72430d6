//! A book's calls by name, for whoever knows what it calls: each is `Book::call` of that call. They are inlined, so that no call is looked
//! at by its kind, and of a call only the segments of `map_list` are made in memory and moved. What each does and which reasons it refuses
//! with, `engine::State` says at the method of the same name.

ghost use Rattle.dmatypes.specs.declared.call.Call.TheVariants as calls;
ghost use Rattle.manager.specs.Called.{IsCalled};

use crate::book::{Book, HistoryFull};
use crate::owner::Owner;
use crate::port::Rows;
use crate::share::Share;
use arrayvec::ArrayVec;
use dmatypes::{Access, Cache, Call, MOST_SEGMENTS, Mode, Reply, Segment, Whim, Width};

impl<B: Owner> Book<B> {
    /// Makes a domain, as `State::domain` does.
    #[inline(always)]
    pub fn domain(
        &mut self,
        rows: &Rows<B>,
        mine: &mut Share<B>,
        mode: Mode,
        width: Width,
    ) -> Result<(u64, Reply), HistoryFull>
        ensures { IsCalled B.frames B.room B.mode B.most B.shares self.old mine.old (calls.Domain mode width) result self.new mine.new }
    {
        self.call_of(rows, mine, Call::Domain { mode, width })
    }

    /// Attaches a device, as `State::attach` does.
    #[inline(always)]
    pub fn attach(
        &mut self,
        rows: &Rows<B>,
        mine: &mut Share<B>,
        device: u64,
        domain: u64,
    ) -> Result<(u64, Reply), HistoryFull>
        ensures { IsCalled B.frames B.room B.mode B.most B.shares self.old mine.old (calls.Attach device domain) result self.new mine.new }
    {
        self.call_of(rows, mine, Call::Attach { device, domain })
    }

    /// Detaches a device, as `State::detach` does.
    #[inline(always)]
    pub fn detach(
        &mut self,
        rows: &Rows<B>,
        mine: &mut Share<B>,
        device: u64,
    ) -> Result<(u64, Reply), HistoryFull>
        ensures { IsCalled B.frames B.room B.mode B.most B.shares self.old mine.old (calls.Detach device) result self.new mine.new }
    {
        self.call_of(rows, mine, Call::Detach { device })
    }

    /// Ends a domain, as `State::drop_domain` does.
    #[inline(always)]
    pub fn drop_domain(
        &mut self,
        rows: &Rows<B>,
        mine: &mut Share<B>,
        domain: u64,
    ) -> Result<(u64, Reply), HistoryFull>
        ensures { IsCalled B.frames B.room B.mode B.most B.shares self.old mine.old (calls.Drop domain) result self.new mine.new }
    {
        self.call_of(rows, mine, Call::Drop { domain })
    }

    /// Maps pages, as `State::map` does.
    #[inline(always)]
    pub fn map(
        &mut self,
        rows: &Rows<B>,
        mine: &mut Share<B>,
        domain: u64,
        frame: u64,
        pages: u64,
        order: u64,
        rights: u64,
    ) -> Result<(u64, Reply), HistoryFull>
        ensures { IsCalled B.frames B.room B.mode B.most B.shares self.old mine.old
            (calls.Map domain frame pages order rights) result self.new mine.new }
    {
        self.call_of(
            rows,
            mine,
            Call::Map {
                domain,
                frame,
                pages,
                order,
                rights,
            },
        )
    }

    /// Maps the pages of segments, as `State::map_list` does.
    #[inline(always)]
    pub fn map_list(
        &mut self,
        rows: &Rows<B>,
        mine: &mut Share<B>,
        domain: u64,
        order: u64,
        rights: u64,
        segments: ArrayVec<Segment, MOST_SEGMENTS>,
    ) -> Result<(u64, Reply), HistoryFull>
        ensures { IsCalled B.frames B.room B.mode B.most B.shares self.old mine.old
            (calls.MapList domain order rights segments) result self.new mine.new }
    {
        self.call_of(
            rows,
            mine,
            Call::MapList {
                domain,
                order,
                rights,
                segments,
            },
        )
    }

    /// Ends live pages, as `State::unmap` does.
    #[inline(always)]
    pub fn unmap(
        &mut self,
        rows: &Rows<B>,
        mine: &mut Share<B>,
        domain: u64,
        address: u64,
        pages: u64,
    ) -> Result<(u64, Reply), HistoryFull>
        ensures { IsCalled B.frames B.room B.mode B.most B.shares self.old mine.old
            (calls.Unmap domain address pages) result self.new mine.new }
    {
        self.call_of(
            rows,
            mine,
            Call::Unmap {
                domain,
                address,
                pages,
            },
        )
    }

    /// Releases a domain's retired records, as `State::flush` does.
    #[inline(always)]
    pub fn flush(
        &mut self,
        rows: &Rows<B>,
        mine: &mut Share<B>,
        domain: u64,
    ) -> Result<(u64, Reply), HistoryFull>
        ensures { IsCalled B.frames B.room B.mode B.most B.shares self.old mine.old (calls.Flush domain) result self.new mine.new }
    {
        self.call_of(rows, mine, Call::Flush { domain })
    }

    /// Begins a flush, as `State::begin` does.
    #[inline(always)]
    pub fn begin(
        &mut self,
        rows: &Rows<B>,
        mine: &mut Share<B>,
        domain: u64,
    ) -> Result<(u64, Reply), HistoryFull>
        ensures { IsCalled B.frames B.room B.mode B.most B.shares self.old mine.old (calls.Begin domain) result self.new mine.new }
    {
        self.call_of(rows, mine, Call::Begin { domain })
    }

    /// Lets the unit do one step, as `State::unit_step` does.
    #[inline(always)]
    pub fn unit_step(
        &mut self,
        rows: &Rows<B>,
        mine: &mut Share<B>,
    ) -> Result<(u64, Reply), HistoryFull>
        ensures { IsCalled B.frames B.room B.mode B.most B.shares self.old mine.old calls.Unit result self.new mine.new }
    {
        self.call_of(rows, mine, Call::Unit)
    }

    /// Ends a begun flush, as `State::reap` does.
    #[inline(always)]
    pub fn reap(
        &mut self,
        rows: &Rows<B>,
        mine: &mut Share<B>,
        domain: u64,
        number: u64,
    ) -> Result<(u64, Reply), HistoryFull>
        ensures { IsCalled B.frames B.room B.mode B.most B.shares self.old mine.old (calls.Reap domain number) result self.new mine.new }
    {
        self.call_of(rows, mine, Call::Reap { domain, number })
    }

    /// Makes a device's request at a byte address, as `State::dma` does.
    #[inline(always)]
    pub fn dma(
        &mut self,
        rows: &Rows<B>,
        mine: &mut Share<B>,
        device: u64,
        address: u64,
        access: Access,
        whim: Whim,
    ) -> Result<(u64, Reply), HistoryFull>
        ensures { IsCalled B.frames B.room B.mode B.most B.shares self.old mine.old
            (calls.Dma device address access whim) result self.new mine.new }
    {
        let request = Call::Dma {
            device,
            address,
            access,
            whim,
        };
        self.call_of(rows, mine, request)
    }

    /// Has the unit forget what it cached at a place, as `State::evict` does.
    #[inline(always)]
    pub fn evict(
        &mut self,
        rows: &Rows<B>,
        mine: &mut Share<B>,
        kind: Cache,
        place: u64,
    ) -> Result<(u64, Reply), HistoryFull>
        ensures { IsCalled B.frames B.room B.mode B.most B.shares self.old mine.old (calls.Evict kind place) result self.new mine.new }
    {
        self.call_of(rows, mine, Call::Evict { kind, place })
    }

    // `call`, with its clauses as one.
    #[inline(always)]
    fn call_of(
        &mut self,
        rows: &Rows<B>,
        mine: &mut Share<B>,
        call: Call,
    ) -> Result<(u64, Reply), HistoryFull>
        ensures { IsCalled B.frames B.room B.mode B.most B.shares self.old mine.old call result self.new mine.new }
    {
        self.call(rows, mine, call)
    }
}
