// Each call of the ports once, over one history. It has a strict domain, device 3 attached to it, 17 pages mapped at page 1
// to frame 0x100, read only, and two requests of the device, whose pages share a slot. The laws of the ports stand behind
// them.

ghost use Rattle.std.specs.Prelude.{◌≡◌, ◌+◌, ◌<◌, [], ◌∷◌, ◌++◌, length, replicate};
ghost use Rattle.dmatypes.specs.History.{IsLegal};
ghost use Rattle.vtdbits.specs.Port.{port_word};
ghost use Rattle.vtdbits.specs.Translation.{target};
ghost use Rattle.vectors.specs.Histories.{mapped_history, whole_history};

use dmatypes::{Access, Call, Event, Frame, Mode, Page, Reply, Rights, Whim, Width};
use ports::{Desk, Port, Rows};
use std::process::Abort;
use vtdbits::{PortWord, Translation};

// Appends an event while all words are empty.
fn enter(desk: &mut Desk, rows: &Rows, event: &Event)
    requires rows { (desk.old.rows ≡ rows.now) × (rows.now.frames ≡ 64) }
    requires legal { (length desk.old.history < 5) × IsLegal 64 (desk.old.history ++ event.now ∷ []) }
    requires empty { desk.old.last ≡ replicate 256 0 }
    ensures same { (desk.new.rows ≡ desk.old.rows) × (desk.new.last ≡ desk.old.last) }
    ensures history { desk.new.history ≡ desk.old.history ++ event.now ∷ [] }
{
    desk.append(rows, event);
}

// Appends the calls that map 17 pages for device 3.
fn map_pages(desk: &mut Desk, rows: &Rows)
    requires rows { (desk.old.rows ≡ rows.now) × (rows.now.frames ≡ 64) }
    requires empty { (desk.old.history ≡ []) × (desk.old.last ≡ replicate 256 0) }
    ensures same { (desk.new.rows ≡ desk.old.rows) × (desk.new.last ≡ desk.old.last) }
    ensures history { desk.new.history ≡ mapped_history }
{
    let domain = Event {
        call: Call::Domain {
            mode: Mode::Strict,
            width: Width::W39,
        },
        reply: Reply::Made(1),
    };
    enter(desk, rows, &domain);
    let attach = Event {
        call: Call::Attach {
            device: 3,
            domain: 1,
        },
        reply: Reply::Done,
    };
    enter(desk, rows, &attach);
    let map = Event {
        call: Call::Map {
            domain: 1,
            frame: 0x100,
            pages: 17,
            order: 0,
            rights: 1,
        },
        reply: Reply::Mapped(0x1000),
    };
    enter(desk, rows, &map);
}

// Appends the two requests.
fn request_pages(desk: &mut Desk, rows: &Rows)
    requires rows { (desk.old.rows ≡ rows.now) × (rows.now.frames ≡ 64) }
    requires mapped { (desk.old.history ≡ mapped_history) × (desk.old.last ≡ replicate 256 0) }
    ensures same { desk.new.rows ≡ desk.old.rows }
    ensures history { desk.new.history ≡ whole_history }
{
    let whim = Whim {
        look: true,
        fill: true,
    };
    let first = Event {
        call: Call::Dma {
            device: 3,
            address: 0x1000,
            access: Access::Read,
            whim,
        },
        reply: Reply::Host(0x10_0000),
    };
    enter(desk, rows, &first);
    let second = Event {
        call: Call::Dma {
            device: 3,
            address: 0x11000,
            access: Access::Read,
            whim,
        },
        reply: Reply::Host(0x11_0000),
    };
    enter(desk, rows, &second);
}

// The word of one of the 17 pages, counted from 0.
fn word_of(rt: &impl Abort, place: u64) -> PortWord
    requires { place < 17 }
    ensures { result ≡ port_word (1 + place) (target (0x100 + place) 1) }
{
    let page = Page::new(1 + place).expect(rt, "a page");
    let frame = Frame::new(0x100 + place).expect(rt, "a frame");
    PortWord {
        page,
        translation: Translation::new(frame, Rights::READ),
    }
}

// Fills it.
fn fill_page(rt: &impl Abort, desk: &mut Desk, rows: &Rows, place: u64)
    requires rows { (desk.old.rows ≡ rows.now) × (rows.now.frames ≡ 64) }
    requires place { (place < 17) × (desk.old.history ≡ whole_history) }
    ensures { (desk.new.rows ≡ desk.old.rows) × (desk.new.history ≡ desk.old.history) }
{
    desk.fill(rows, 3, word_of(rt, place));
}

// Whether a hit answers this host address, at this number of events.
fn hits(port: &mut Port, rows: &Rows, address: u64, access: Access, host: Option<u64>) -> bool
    requires { port.old.rows ≡ rows.now }
    ensures { port.new.rows ≡ port.old.rows }
{
    let (answer, count) = port.hit(rows, address, access);
    answer == host && count == 5
}

// Rows may be used by many threads at once.
fn is_shared<T: Sync>(_: &T) -> bool {
    true
}

// A port may go to another thread.
fn is_sent<T: Send>(_: &T) -> bool {
    true
}

#[test]
fn words_of_one_device(rt: HostRuntime) {
    let (rows, mut desk, mut ports, mut passes) = Rows::new(rt.alloc(), 64, 1).expect(
        &rt, "memory",
    );
    let mut port = ports.remove(3);
    let mut pass = passes.pop().expect(&rt, "a pass");
    assert!(rt; is_shared(&rows) && is_sent(&port) && is_sent(&pass) && is_sent(&desk));
    assert!(rt; port.count(&rows) == 0);
    map_pages(&mut desk, &rows);
    request_pages(&mut desk, &rows);
    hit_words(&rt, &mut desk, &rows, &mut port);
    desk.meet(&rows, &mut port);
    desk.tell(&rows, &mut pass);
    assert!(rt; port.count(&rows) == 5);
}

// Two pages share a slot of the row: the last that was filled is there.
fn hit_words(rt: &impl Abort, desk: &mut Desk, rows: &Rows, port: &mut Port)
    requires rows { (desk.old.rows ≡ rows.now) × ((port.old.rows ≡ rows.now) × (rows.now.frames ≡ 64)) }
    requires history { desk.old.history ≡ whole_history }
    ensures { (desk.new.rows ≡ desk.old.rows) × (port.new.rows ≡ port.old.rows) }
{
    fill_page(rt, desk, rows, 0);
    fill_page(rt, desk, rows, 16);
    assert!(rt; hits(port, rows, 0x11234, Access::Read, Some(0x11_0234)));
    assert!(rt; hits(port, rows, 0x11234, Access::Write, None));
    assert!(rt; hits(port, rows, 0x1234, Access::Read, None));
    port.evict(rows, 1);
    assert!(rt; hits(port, rows, 0x11234, Access::Read, None));
    fill_page(rt, desk, rows, 16);
    assert!(rt; hits(port, rows, 0x11000, Access::Read, Some(0x11_0000)));
    desk.clear(rows, 3);
    assert!(rt; hits(port, rows, 0x11234, Access::Read, None));
}

#[test]
fn laws(_rt: HostRuntime) {
    ports::laws::keeps();
    ports::laws::whole_run();
}
