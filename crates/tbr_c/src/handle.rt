//! How C holds a renderer.
ghost use Rattle.std.specs.Prelude.{◌≡◌, Option, Some};
ghost use Rattle.tbr_c.specs.declared.state.State.{State};
ghost use Rattle.tbr_c.specs.Owned.{held_owns, returned_owns};

use crate::held::Held;
use crate::parts::Parts;
use std::alloc::Global;
use std::marker::Model;

/// A renderer as C holds it: a pointer, which it passes by value and gets back through another one.
#[repr(C)]
pub struct Handle {
    ptr: *mut u8,
    alloc: Global,
    pub ghost value: { State },
}

impl Model for Handle {
    ghost also_owns = { λ h. held_owns h.alloc h.ptr h.value };
}

/// Where C gets a renderer back: a pointer of its own. It owns what a call has put there, and nothing before.
#[repr(C)]
#[derive(Drop)]
pub struct Returned {
    ptr: *mut u8,
    alloc: Global,
    pub ghost value: { Option State },
}

impl Model for Returned {
    ghost also_owns = { λ r. returned_owns r.alloc r.ptr r.value };
}

impl Handle {
    /// The renderer that C gives up.
    pub fn open(self) -> Box<Held>
        ensures { result.value ≡ self.value }
    {
        self.into_parts().into_box()
    }

    fn into_parts(self) -> Parts<Held, Global>
        ensures { result.value ≡ self.value }
    {
        let Handle { ptr, alloc } = self;
        Parts {
            ptr: ptr as *mut Held,
            alloc,
        }
    }
}

impl Returned {
    fn of_parts(parts: Parts<Held, Global>) -> Returned
        ensures { result.value ≡ Some parts.value }
    {
        let Parts { ptr, alloc } = parts;
        Returned {
            ptr: ptr as *mut u8,
            alloc,
        }
    }
}

/// Hands a renderer back to C.
pub fn hand_back(held: Box<Held>, back: &mut Returned)
    ensures { back.new.value ≡ Some held.value }
{
    *back = Returned::of_parts(Parts::of(held));
}
