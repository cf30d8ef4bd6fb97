//! Block designs.
ghost use Rattle.std.specs.Prelude.{◌≡◌, ◌<◌, IfOk, IfErr};
ghost use Rattle.lay_design.specs.Blocks.{object};
ghost use Rattle.lay_design.specs.Design.{IsDesign, IsFault};
ghost use Rattle.lay_design.specs.Families.{complete, cyclic, IsRefused};

use crate::causes::find_fault;
use crate::families::cyclic_tuples;
use crate::fault::DesignFault;
use crate::numbers::Numbers;
use crate::subsets::{complete_numbers, complete_tuples};
use std::alloc::Global;
use std::marker::Model;

/// A block design: b tuples of k distinct objects below v. Each object stands in r tuples, and each
/// two objects stand together in lambda tuples.
///
/// No reader takes memory.
#[derive(Drop)]
pub struct Design {
    numbers: Numbers,
    list: Vec<u32>,
}

impl Model for Design {
    ghost use Rattle.lay_design.specs.Design.{Blocks};

    ghost Value = { Blocks };

    ghost use Rattle.lay_design.specs.Design.{IsDesign};
    ghost use Rattle.lay_design.specs.Given.{blocks_of};

    ghost view = { λ d. blocks_of d.numbers d.list.items };

    ghost invariant = { λ d. IsDesign (blocks_of d.numbers d.list.items) };
}

impl Design {
    /// The design of these numbers and tuples, which stand one after the other.
    ///
    /// # Errors
    ///
    /// The first that holds, exactly, as `DesignFault` says. `Memory`, for a table of counts, is the
    /// only one that the arguments don't settle; it comes only where the tuples are of distinct
    /// objects below v.
    pub fn check(
        alloc: Global,
        b: u32,
        v: u32,
        k: u32,
        r: u32,
        lambda: u32,
        tuples: Vec<u32>,
    ) -> Result<Design, DesignFault>
        ensures design { IfOk result (λ design. design
            ≡ record { b = b; v = v; k = k; r = r; lambda = lambda; objects = tuples.items }) }
        ensures ok { IfOk result (λ design. IsDesign design) }
        ensures err { IfErr result (λ fault. IsFault (record
            { b = b; v = v; k = k; r = r; lambda = lambda; objects = tuples.items }) fault) }
    {
        let numbers = Numbers {
            tuples: b,
            objects: v,
            width: k,
            degree: r,
            together: lambda,
        };
        match find_fault(alloc, numbers, &tuples) {
            Ok(()) => Ok(Design {
                numbers,
                list: tuples,
            }),
            Err(fault) => Err(fault),
        }
    }

    /// The design of v tuples, each the base tuple moved on around the v objects: tuple t has at each
    /// place the base tuple's object there plus t, modulo v. Each object stands in as many tuples as
    /// the base tuple has objects, k, and each two in k (k - 1) / (v - 1).
    ///
    /// # Errors
    ///
    /// As of `check`, for these numbers and tuples; or `Memory` for the tuples.
    pub fn cyclic(alloc: Global, v: u32, base: &[u32]) -> Result<Design, DesignFault>
        ensures design { IfOk result (λ design. design ≡ cyclic v base.now) }
        ensures ok { IfOk result (λ design. IsDesign design) }
        ensures err { IfErr result (λ fault. IsRefused (cyclic v base.now) fault) }
    {
        if !(2..=32).contains(&v) || !(2..=v as usize).contains(&base.len()) {
            return Err(DesignFault::Count);
        }
        let k = base.len() as u32;
        let tuples = match cyclic_tuples(alloc, v, base) {
            Ok(tuples) => tuples,
            Err(_) => return Err(DesignFault::Memory),
        };
        Design::check(alloc, v, v, k, k, k * (k - 1) / (v - 1), tuples)
    }

    /// The design of all tuples of k of v objects, each ascending, in lexicographic order. The
    /// numbers of tuples, of those with an object, and of those with two are binomial coefficients.
    ///
    /// # Errors
    ///
    /// As of `check`, for these numbers and tuples; or `Memory` for the tuples.
    pub fn complete(alloc: Global, v: u32, k: u32) -> Result<Design, DesignFault>
        ensures design { IfOk result (λ design. design ≡ complete v k) }
        ensures ok { IfOk result (λ design. IsDesign design) }
        ensures err { IfErr result (λ fault. IsRefused (complete v k) fault) }
    {
        if !(2..=32).contains(&v) || !(2..=v).contains(&k) {
            return Err(DesignFault::Count);
        }
        let Some(n) = complete_numbers(v, k) else {
            return Err(DesignFault::Count);
        };
        let tuples = match complete_tuples(alloc, v, k) {
            Ok(tuples) => tuples,
            Err(_) => return Err(DesignFault::Memory),
        };
        Design::check(alloc, n.tuples, v, k, n.degree, n.together, tuples)
    }

    /// How many tuples there are, 1 to 4,096.
    pub fn b(&self) -> u32
        ensures b { result ≡ self.now.b }
        ensures design { IsDesign self.now }
    {
        self.numbers.tuples
    }

    /// How many objects there are, 2 to 32.
    pub fn v(&self) -> u32
        ensures v { result ≡ self.now.v }
        ensures design { IsDesign self.now }
    {
        self.numbers.objects
    }

    /// How many objects a tuple has, 2 to v.
    pub fn k(&self) -> u32
        ensures k { result ≡ self.now.k }
        ensures design { IsDesign self.now }
    {
        self.numbers.width
    }

    /// In how many tuples each object stands.
    pub fn r(&self) -> u32
        ensures r { result ≡ self.now.r }
        ensures design { IsDesign self.now }
    {
        self.numbers.degree
    }

    /// In how many tuples each two objects stand together.
    pub fn lambda(&self) -> u32
        ensures lambda { result ≡ self.now.lambda }
        ensures design { IsDesign self.now }
    {
        self.numbers.together
    }

    /// The object in a place of a tuple; both count from 0.
    pub fn object(&self, tuple: u32, position: u32) -> u32
        requires tuple { tuple < self.now.b }
        requires position { position < self.now.k }
        ensures object { result ≡ object self.now.k self.now.objects tuple position }
        ensures below { result < self.now.v }
        ensures design { IsDesign self.now }
    {
        self.list[tuple as usize * self.numbers.width as usize + position as usize]
    }
}
