//! Descriptors of the invalidation queue.

ghost use Rattle.std.specs.Prelude.{◌≡◌, ◌<◌, ◌^◌, IfSome, IfNone};

use crate::bits::field;
use crate::number::{DeviceNumber, DomainId, PageBlock};
use crate::words::Words;
use dmatypes::{FRAMES_END, PAGE_BYTES};

/// What the unit has to drop or to answer (own, after queued invalidation).
#[derive(Clone, Copy, Debug, PartialEq, Eq)]
pub enum Descriptor {
    /// Every cached context goes.
    ContextGlobal,
    /// The domain's cached contexts go.
    ContextDomain(DomainId),
    /// The device's cached context goes.
    ContextDevice {
        domain: DomainId,
        device: DeviceNumber,
    },
    /// Every cached leaf and non-leaf entry goes.
    IotlbGlobal,
    /// The domain's cached leaf and non-leaf entries go.
    IotlbDomain(DomainId),
    /// The domain's cached leaf entries that lie in the block go, and unless the invalidation hint (IH) is
    /// set, its non-leaf entries that meet the block.
    IotlbPages {
        domain: DomainId,
        block: PageBlock,
        hint: bool,
    },
    /// Nothing goes; the number is the unit's status once all before is done.
    Wait(u32),
}

// The low bits of each form: the kind, the granularity, and in every IOTLB descriptor both drain bits.
const CONTEXT_GLOBAL: u64 = 0x11;

const CONTEXT_DOMAIN: u64 = 0x21;

const CONTEXT_DEVICE: u64 = 0x31;

const IOTLB_GLOBAL: u64 = 0xd2;

const IOTLB_DOMAIN: u64 = 0xe2;

const IOTLB_PAGES: u64 = 0xf2;

const WAIT: u64 = 0x25;

// Where every wait writes its status: the first address behind the host frames.
const STATUS_ADDRESS: u64 = FRAMES_END * PAGE_BYTES;

impl Descriptor {
    ghost use Rattle.vtdbits.specs.Descriptor.{Spells, descriptor_of};

    /// The descriptor that two words spell, if they spell one.
    // Inlined into each caller: what waits in a ring spells a descriptor, and whoever fetches it needs no test but of the kind.
    #[inline(always)]
    #[tactic(auto, unfolding(crate::specs::Descriptor::descriptor_of))]
    pub fn decode(words: Words) -> Option<Descriptor>
        ensures some { IfSome result (Spells words) }
        ensures none { IfNone result ((d : Descriptor) → Spells words d → ⊥) }
        ensures read { result ≡ descriptor_of words }
    {
        match field(words.low, 0, 16) {
            CONTEXT_GLOBAL if words.low >> 16 == 0 && words.high == 0 => {
                Some(Descriptor::ContextGlobal)
            }
            CONTEXT_DOMAIN if words.high == 0 => {
                let domain = DomainId::new(words.low >> 16)?;
                Some(Descriptor::ContextDomain(domain))
            }
            CONTEXT_DEVICE if field(words.low, 32, 3) == 0 && words.high == 0 => {
                let domain = DomainId::new(field(words.low, 16, 16))?;
                let device = DeviceNumber::new(words.low >> 35)?;
                Some(Descriptor::ContextDevice { domain, device })
            }
            IOTLB_GLOBAL if words.low >> 16 == 0 && words.high == 0 => Some(
                Descriptor::IotlbGlobal,
            ),
            IOTLB_DOMAIN if words.high == 0 => {
                let domain = DomainId::new(words.low >> 16)?;
                Some(Descriptor::IotlbDomain(domain))
            }
            IOTLB_PAGES if field(words.high, 7, 5) == 0 => {
                let domain = DomainId::new(words.low >> 16)?;
                let block = PageBlock::new(words.high >> 12, field(words.high, 0, 6) as u8)?;
                let hint = field(words.high, 6, 1) == 1;
                Some(Descriptor::IotlbPages {
                    domain,
                    block,
                    hint,
                })
            }
            WAIT if field(words.low, 16, 16) == 0 && words.high == STATUS_ADDRESS => {
                Some(Descriptor::Wait((words.low >> 32) as u32))
            }
            _ => None,
        }
    }

    /// The words that spell it.
    #[tactic(auto, unfolding(crate::specs::Descriptor::descriptor_of))]
    pub fn encode(self) -> Words
        ensures spells { Spells result self }
        ensures read { descriptor_of result ≡ Some self }
    {
        match self {
            Descriptor::ContextGlobal => Words {
                low: CONTEXT_GLOBAL,
                high: 0,
            },
            Descriptor::ContextDomain(domain) => Words {
                low: CONTEXT_DOMAIN + (domain.number() << 16),
                high: 0,
            },
            Descriptor::ContextDevice { domain, device } => Words {
                low: CONTEXT_DEVICE + (domain.number() << 16) + (device.number() << 35),
                high: 0,
            },
            Descriptor::IotlbGlobal => Words {
                low: IOTLB_GLOBAL,
                high: 0,
            },
            Descriptor::IotlbDomain(domain) => Words {
                low: IOTLB_DOMAIN + (domain.number() << 16),
                high: 0,
            },
            Descriptor::IotlbPages {
                domain,
                block,
                hint,
            } => Words {
                low: IOTLB_PAGES + (domain.number() << 16),
                high: (block.first() << 12) + (u64::from(hint) << 6) + u64::from(block.order()),
            },
            Descriptor::Wait(status) => Words {
                low: WAIT + (u64::from(status) << 32),
                high: STATUS_ADDRESS,
            },
        }
    }
}
