//! How large a manager is to be, and what it is made of.

ghost use Rattle.std.specs.Prelude.{◌≡◌, ◌≤◌, ℕ, IsSome, IfSome, IfOk, ◌↔◌, false};
ghost use Rattle.dmatypes.specs.declared.limits.TheConstants.{CALLS_END};
ghost use Rattle.manager.specs.Kept.{Config, IsWithinLimits, Seed};

use dmatypes::{CALLS_END, LEAST_TABLE_FRAMES, MOST_CALLS, MOST_SHARES, MOST_TABLE_FRAMES};
use ports::{Desk, Pass, Port, Rows};
use std::alloc::{AllocError, Global};
use std::marker::Model;
use std::sync::ledger::Blank;

/// How large a manager is to be: its table frames, the calls in its history, and its shares, each within its limits (own); and
/// whether its unit has Caching Mode (capability bit 7). Where the history is handed on, the calls are those that are kept at one
/// time.
#[derive(Clone, Copy)]
pub struct Config {
    frames: u64,
    calls: u64,
    shares: u64,
    caching: bool,
    most: u64,
}

impl Model for Config {
    ghost use Rattle.std.specs.Prelude.{◌≤◌};
    ghost use Rattle.dmatypes.specs.declared.limits.TheConstants.{CALLS_END};
    ghost use Rattle.manager.specs.Kept.{Config, IsWithinLimits};

    ghost Value = { Config };

    ghost view = { λ c. record { frames = c.frames; calls = c.calls; shares = c.shares; caching = c.caching; most = c.most } };

    ghost invariant = { λ c. IsWithinLimits c.frames c.calls c.shares × (c.calls ≤ c.most) × (c.most ≤ CALLS_END) };

    ghost inverse = { λ v. record { frames = v.frames; calls = v.calls; shares = v.shares; caching = v.caching; most = v.most } };
}

impl Config {
    /// A configuration of a manager that keeps all its calls, over a unit without Caching Mode; `None` exactly where a number is
    /// outside its limits.
    pub fn new(frames: u64, calls: u64, shares: u64) -> Option<Config>
        ensures some { IsSome result ↔ IsWithinLimits frames calls shares }
        ensures numbers { IfSome result
            (λ c. c ≡ record { frames = frames; calls = calls; shares = shares; caching = false; most = calls }) }
    {
        if (LEAST_TABLE_FRAMES..=MOST_TABLE_FRAMES).contains(&frames)
            && (1..=MOST_CALLS).contains(&calls)
            && (1..=MOST_SHARES).contains(&shares)
        {
            Some(Config {
                frames,
                calls,
                shares,
                caching: false,
                most: calls,
            })
        } else {
            None
        }
    }

    /// The same, with Caching Mode on or off: a unit with it may remember that a page is absent, and a map invalidates.
    pub fn caching_mode(self, on: bool) -> Config
        ensures { result ≡ record self { caching = on } }
    {
        Config {
            caching: on,
            ..self
        }
    }

    /// The same for a manager that hands its history on: it takes up to 2^56 calls, and keeps so many at one time.
    pub fn handing_on(self) -> Config
        ensures { result ≡ record self { most = CALLS_END } }
    {
        Config {
            most: CALLS_END,
            ..self
        }
    }

    /// How many table frames there are.
    pub fn frames(&self) -> u64
        ensures value { result ≡ self.now.frames }
        ensures within { IsWithinLimits self.now.frames self.now.calls self.now.shares }
    {
        self.frames
    }

    /// For how many calls there is room at one time.
    pub fn calls(&self) -> u64
        ensures value { result ≡ self.now.calls }
        ensures within { IsWithinLimits self.now.frames self.now.calls self.now.shares }
    {
        self.calls
    }

    /// How many calls the history may have in all.
    pub fn most(&self) -> u64
        ensures value { result ≡ self.now.most }
        ensures within { (self.now.calls ≤ result) × (result ≤ CALLS_END) }
    {
        self.most
    }

    /// How many shares are made.
    pub fn shares(&self) -> u64
        ensures value { result ≡ self.now.shares }
        ensures within { IsWithinLimits self.now.frames self.now.calls self.now.shares }
    {
        self.shares
    }

    /// Whether the unit has Caching Mode.
    pub fn is_caching(&self) -> bool
        ensures value { result ≡ self.now.caching }
        ensures within { IsWithinLimits self.now.frames self.now.calls self.now.shares }
    {
        self.caching
    }
}

/// What a manager is made of, before a type stands for it.
#[derive(Drop)]
pub struct Seed {
    pub(crate) config: Config,
    pub(crate) blank: Blank,
    pub(crate) handing: Blank,
    pub(crate) rows: Rows,
    pub(crate) desk: Desk,
    pub(crate) ports: Vec<Port>,
    pub(crate) passes: Vec<Pass>,
}

impl Model for Seed {
    ghost use Rattle.std.specs.Prelude.{◌≡◌, ◌≤◌, vec_len};
    ghost use Rattle.dmatypes.specs.declared.limits.TheConstants.{CALLS_END};
    ghost use Rattle.manager.specs.Kept.{IsWithinLimits, Seed};
    ghost use Rattle.ports.specs.Seen.{ArePasses, ArePorts, new_desk};

    ghost Value = { Seed };

    ghost view = { λ s.
        record {
          name = s.blank.name;
          shares = s.config.shares;
          room = s.config.calls;
          frames = s.config.frames;
          caching = s.config.caching;
          rows = s.rows;
          most = s.config.most;
          handing = s.handing.name;
        } };

    ghost invariant = { λ s. (s.blank.parts ≡ s.config.shares) × (s.handing.parts ≡ 1) × IsWithinLimits s.config.frames s.config.calls s.config.shares
        × (s.rows.frames ≡ s.config.frames)
        × (s.desk ≡ new_desk s.rows) × (vec_len s.ports ≡ 16) × ArePorts s.rows s.ports.items 16
        × (vec_len s.passes ≡ s.config.shares) × ArePasses s.rows s.passes.items s.config.shares };
}

impl Seed {
    /// The seed of a manager of this size, with the port words of its devices.
    pub fn new(alloc: Global, config: Config) -> Result<Seed, AllocError>
        ensures shares { IfOk result (λ s. s.shares ≡ config.shares) }
        ensures room { IfOk result (λ s. s.room ≡ config.calls) }
        ensures frames { IfOk result (λ s. s.frames ≡ config.frames) }
        ensures caching { IfOk result (λ s. s.caching ≡ config.caching) }
        ensures most { IfOk result (λ s. s.most ≡ config.most) }
    {
        let (rows, desk, ports, passes) = Rows::new(alloc, config.frames(), config.shares())?;
        Ok(Seed {
            config,
            blank: Blank::new(config.shares()),
            handing: Blank::new(1),
            rows,
            desk,
            ports,
            passes,
        })
    }
}
