//! Instances that hold valid parts alone.

ghost use Rattle.std.specs.Prelude.{◌≡◌, IfOk};

use crate::parts::{Blocks, Parts, Sinks};
use crate::version::Version;
use cts_block::Block;
use cts_geom::Die;
use cts_num::NoMemory;
use cts_units::{Library, Params, Sink};
use std::alloc::Global;
use std::marker::Model;

/// The parts of an instance, which are valid.
///
/// Every read call says so once more, so that its callers know the limits of what it lends.
#[derive(Drop)]
pub struct Instance {
    parts: Parts,
}

impl Model for Instance {
    ghost use Rattle.cts_instance.specs.declared.parts.Parts.{Parts};
    ghost use Rattle.cts_instance.specs.Validity.{IsValid};

    ghost Value = { Parts };

    ghost view = { λ instance. instance.parts };

    ghost invariant = { λ instance. IsValid instance.parts };
}

impl Instance {
    ghost use Rattle.std.specs.Prelude.{◌≡◌, None, IfOk};
    ghost use Rattle.cts_instance.specs.FirstFault.{first_fault};
    ghost use Rattle.cts_instance.specs.Validity.{IsValid, with_sinks};

    /// The instance of parts in which no line has a fault.
    pub fn of(parts: Parts) -> Instance
        requires { first_fault parts ≡ None }
        ensures same { result ≡ parts }
        ensures valid { IsValid result }
    {
        Instance { parts }
    }

    /// The version of the instance.
    pub fn version(&self) -> Version
        ensures part { result ≡ self.now.version }
        ensures valid { IsValid self.now }
    {
        self.parts.version
    }

    /// The outline of the chip, in nm.
    pub fn die(&self) -> Die
        ensures part { result ≡ self.now.die }
        ensures valid { IsValid self.now }
    {
        self.parts.die
    }

    /// The place of the clock source, in nm.
    pub fn source_x(&self) -> i64
        ensures part { result ≡ self.now.source_x }
        ensures valid { IsValid self.now }
    {
        self.parts.source_x
    }

    /// The place of the clock source, in nm.
    pub fn source_y(&self) -> i64
        ensures part { result ≡ self.now.source_y }
        ensures valid { IsValid self.now }
    {
        self.parts.source_y
    }

    /// The output resistance of the clock source, in µΩ.
    pub fn source_r(&self) -> u64
        ensures part { result ≡ self.now.source_r }
        ensures valid { IsValid self.now }
    {
        self.parts.source_r
    }

    /// The wire, the buffers and the insertion threshold.
    pub fn params(&self) -> &Params
        ensures part { result.now ≡ self.now.params }
        ensures valid { IsValid self.now }
    {
        &self.parts.params
    }

    /// The limit on the load at one point, in zF.
    pub fn load_limit(&self) -> u64
        ensures part { result ≡ self.now.load_limit }
        ensures valid { IsValid self.now }
    {
        self.parts.load_limit
    }

    /// The limit on the slew at one point, in 10^-27 s, not doubled.
    pub fn slew_limit(&self) -> u64
        ensures part { result ≡ self.now.slew_limit }
        ensures valid { IsValid self.now }
    {
        self.parts.slew_limit
    }

    /// The sinks in order.
    pub fn sinks(&self) -> &[Sink]
        ensures part { result.now ≡ self.now.sinks }
        ensures valid { IsValid self.now }
    {
        self.parts.sinks.items()
    }

    /// The blocks in order.
    pub fn blocks(&self) -> &[Block]
        ensures part { result.now ≡ self.now.blocks }
        ensures valid { IsValid self.now }
    {
        self.parts.blocks.items()
    }

    /// This instance with other sinks, which are valid with its other parts.
    pub fn with_sinks(&self, alloc: Global, sinks: Vec<Sink>) -> Result<Instance, NoMemory>
        requires { IsValid (with_sinks self.now sinks.items) }
        ensures same { IfOk result (λ instance. instance ≡ with_sinks self.now sinks.items) }
        ensures valid { IfOk result IsValid }
    {
        let parts = &self.parts;
        Ok(Instance {
            parts: Parts {
                version: parts.version,
                die: parts.die,
                source_x: parts.source_x,
                source_y: parts.source_y,
                source_r: parts.source_r,
                params: parts.params.try_clone(alloc)?,
                load_limit: parts.load_limit,
                slew_limit: parts.slew_limit,
                sinks: Sinks::of(sinks),
                blocks: Blocks::of(parts.blocks.items().to_vec(alloc)?),
            },
        })
    }
}
