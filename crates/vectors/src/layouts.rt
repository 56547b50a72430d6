// The words that the layouts give as examples, and those that they refuse.

use dmatypes::{Access, Frame, Page, Rights, Width};
use std::process::Abort;
use vtdbits::{
    ContextEntry, Descriptor, DeviceNumber, DomainId, LargeTranslation, PageBlock, PortWord,
    SsEntry, Translation, Words,
};

fn frame_of(rt: &impl Abort, number: u64) -> Frame {
    Frame::new(number).expect(rt, "a frame")
}

fn translation_of(rt: &impl Abort, frame: u64, rights: u64) -> Translation {
    let rights = Rights::from_number(rights).expect(rt, "rights");
    Translation::new(frame_of(rt, frame), rights)
}

fn large_translation(rt: &impl Abort, frame: u64, rights: u64) -> LargeTranslation {
    let rights = Rights::from_number(rights).expect(rt, "rights");
    let frame = frame_of(rt, frame);
    assert!(rt; frame.number() % 512 == 0);
    LargeTranslation::new(frame, rights)
}

fn domain_one(rt: &impl Abort) -> DomainId {
    DomainId::new(1).expect(rt, "a domain")
}

fn words_of(low: u64, high: u64) -> Words {
    Words { low, high }
}

// Whether the word spells the entry at the level, both ways.
fn is_entry(level: u64, word: u64, entry: SsEntry) -> bool {
    match SsEntry::decode(level, word) {
        Some(found) => found == entry && entry.encode() == word,
        None => false,
    }
}

fn is_context(words: Words, entry: ContextEntry) -> bool {
    match ContextEntry::decode(words) {
        Some(found) => found == entry && entry.encode() == words,
        None => false,
    }
}

fn is_descriptor(words: Words, descriptor: Descriptor) -> bool {
    match Descriptor::decode(words) {
        Some(found) => found == descriptor && descriptor.encode() == words,
        None => false,
    }
}

fn is_port_word(word: u64, port: PortWord) -> bool {
    match PortWord::decode(word) {
        Some(found) => found == port && port.encode() == word,
        None => false,
    }
}

#[test]
fn entries_and_their_words(rt: HostRuntime) {
    for (level, word, entry) in [
        (
            1,
            0x0000_0000_0010_0003,
            SsEntry::Leaf(translation_of(&rt, 0x100, 3)),
        ),
        (
            2,
            0x0000_0000_0040_0081,
            SsEntry::LargeLeaf(large_translation(&rt, 0x400, 1)),
        ),
        (2, 0x0000_0000_0000_5003, SsEntry::Table(frame_of(&rt, 5))),
        (3, 0x0000_0000_0000_5003, SsEntry::Table(frame_of(&rt, 5))),
        (4, 0x0000_0000_0000_5003, SsEntry::Table(frame_of(&rt, 5))),
        (
            1,
            0x0000_000f_ffff_f002,
            SsEntry::Leaf(translation_of(&rt, 0xff_ffff, 2)),
        ),
        (1, 0, SsEntry::Absent),
        (4, 0, SsEntry::Absent),
    ] {
        assert!(rt; is_entry(level, word, entry), "{word} at level {level}");
    }
    let last = large_translation(&rt, 0x400, 1).page(511);
    assert_eq!(rt; last, translation_of(&rt, 0x5ff, 1));
}

#[test]
fn words_of_no_entry(rt: HostRuntime) {
    for (level, word) in [
        (1, 0x0000_0000_0010_0000),
        (2, 0x0000_0000_0010_0000),
        (3, 0x0000_0000_0010_0000),
        (4, 0x0000_0000_0010_0000),
        (2, 0x0000_0000_0040_1081),
        (3, 0x0000_0000_0000_5001),
        (1, 0x0000_0000_0040_0081),
    ] {
        assert!(rt;
            SsEntry::decode(level, word).is_none(),
            "{word} at level {level}"
        );
    }
}

#[test]
fn contexts_and_their_words(rt: HostRuntime) {
    let present = |width| ContextEntry::Present {
        root: frame_of(&rt, 5),
        width,
        domain: domain_one(&rt),
    };
    for (low, high, entry) in [
        (
            0x0000_0000_0000_5001,
            0x0000_0000_0000_0101,
            present(Width::W39),
        ),
        (
            0x0000_0000_0000_5001,
            0x0000_0000_0000_0102,
            present(Width::W48),
        ),
        (0, 0, ContextEntry::Absent),
    ] {
        assert!(rt; is_context(words_of(low, high), entry), "{low} {high}");
    }
    assert!(rt;
        ContextEntry::decode(words_of(0x5001, 1)).is_none(),
        "domain 0"
    );
    assert!(rt;
        ContextEntry::decode(words_of(0x5001, 0x103)).is_none(),
        "a width of 57 bits"
    );
}

#[test]
fn descriptors_and_their_words(rt: HostRuntime) {
    let domain = domain_one(&rt);
    let device = DeviceNumber::new(3).expect(&rt, "a device");
    let block = PageBlock::new(0x200, 9).expect(&rt, "a block");
    let hint = true;
    for (low, high, descriptor) in [
        (
            0x0000_0018_0001_0031,
            0,
            Descriptor::ContextDevice { domain, device },
        ),
        (
            0x0000_0000_0001_00f2,
            0x0000_0000_0020_0049,
            Descriptor::IotlbPages {
                domain,
                block,
                hint,
            },
        ),
        (0x0000_0000_0001_00e2, 0, Descriptor::IotlbDomain(domain)),
        (
            0x0000_0007_0000_0025,
            0x0000_0010_0000_0000,
            Descriptor::Wait(7),
        ),
    ] {
        assert!(rt;
            is_descriptor(words_of(low, high), descriptor),
            "{low} {high}"
        );
    }
    let unaligned = words_of(0x0000_0000_0001_00f2, 0x0000_0000_0020_1009);
    assert!(rt;
        Descriptor::decode(unaligned).is_none(),
        "an unaligned block"
    );
}

#[test]
fn port_words(rt: HostRuntime) {
    for (word, page, frame, rights) in [
        (0x0000_0000_0400_0403, 1, 0x100, 3),
        (0x0000_0008_0000_1001, 0x200, 0x400, 1),
    ] {
        let page = Page::new(page).expect(&rt, "a page");
        let translation = translation_of(&rt, frame, rights);
        assert!(rt;
            is_port_word(word, PortWord { page, translation }),
            "at {word}"
        );
    }
    for word in [0, 0x0000_0000_0400_0400] {
        assert!(rt; PortWord::decode(word).is_none(), "at {word}");
    }
}

// Whether the word of page 1 and frame 0x100, read only, gives a request this host address.
fn gives_host(rt: &impl Abort, address: u64, access: Access, host: Option<u64>) -> bool {
    let page = Page::new(1).expect(rt, "a page");
    let translation = translation_of(rt, 0x100, 1);
    PortWord::host(PortWord { page, translation }.encode(), address, access) == host
}

#[test]
fn hosts_by_port_word(rt: HostRuntime) {
    assert!(rt; gives_host(&rt, 0x1234, Access::Read, Some(0x10_0234)));
    assert!(rt; gives_host(&rt, 0x1234, Access::Write, None));
    assert!(rt; gives_host(&rt, 0x2234, Access::Read, None));
    assert!(rt; PortWord::host(0, 0x234, Access::Read).is_none());
}
