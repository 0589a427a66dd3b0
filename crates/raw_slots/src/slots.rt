//! The raw memory: the slots of one block, as Rust's `[MaybeUninit<T>]`. All pointers of the crate are here.
ghost use Rattle.std.specs.Prelude.{◌≡◌, ℕ, ◌+◌, ◌<◌, ◌≤◌, ◌++◌, List, Option, Some, None, map, length, take, drop, replicate, get_or, slice_set, IfOk, ⊤};
ghost use Rattle.std.specs.Vec.Ownership.{FitsInBlock};
ghost use Rattle.core.specs.Ptr.{ptr_add};
ghost use base.Fml.{ftrue};
ghost use denote.RawPtr.{Ptr};
ghost use Rattle.raw_slots.specs.Slots.{IsFilled};
ghost use Rattle.raw_slots.specs.inside.Ownership.{slots_own, slots_lent, deed_owns};

use std::alloc::{AllocError, Allocator};
use std::marker::{Model, PhantomData, Send, Sync};
use std::mem::{align_of, size_of};
use std::slice;

/// Where a block begins. It owns nothing.
pub(crate) struct Base<T> {
    ptr: *mut T,
}

impl<T> Clone for Base<T> {
    ghost is_clone = { λ x y. y ≡ x };

    ghost is_infallible = { λ _. ⊤ };

    fn clone(&self) -> Result<Base<T>, AllocError> {
        Ok(*self)
    }
}

impl<T> Copy for Base<T> {}

// An address is plain data.
unsafe impl<T> Send for Base<T> {}

unsafe impl<T> Sync for Base<T> {}

/// The owner of the slots from `at` on, each empty or holding a value. It takes no space, and dropping it leaks what it owns.
#[derive(Drop)]
pub(crate) struct Slots<T> {
    mark: PhantomData<*const T>,
    ghost at: { Ptr },
    ghost contents: { List (Option T) },
}

impl<T> Model for Slots<T> {
    ghost also_owns = { λ p. slots_own T.row p.at p.contents };

    ghost also_shares = { λ p _ κ. slots_lent T.row p.at p.contents κ };
}

unsafe impl<T: Send> Send for Slots<T> {}

unsafe impl<T: Sync> Sync for Slots<T> {}

/// The right to give the block of `len` slots at `at` back to `alloc`. It takes no space.
pub(crate) struct Deed<T, A: Allocator> {
    mark: PhantomData<*const (T, A)>,
    ghost at: { Ptr },
    ghost len: { ℕ },
    ghost alloc: { A },
}

impl<T, A: Allocator> Model for Deed<T, A> {
    ghost also_owns = { λ d. deed_owns T.row (A.dealloc_token d.alloc) d.at d.len };

    ghost also_shares = { λ _ _ _. ftrue };
}

unsafe impl<T, A: Allocator + Send> Send for Deed<T, A> {}

// A `&` to it holds nothing.
unsafe impl<T, A: Allocator> Sync for Deed<T, A> {}

/// A block of `len` slots, all empty. It is not cleared.
pub(crate) fn allocate<T, A: Allocator>(
    alloc: &A,
    len: usize,
) -> Result<(Base<T>, Slots<T>, Deed<T, A>), AllocError>
    requires { FitsInBlock T.row len }
    ensures { IfOk result
        (λ r. (r.1.at ≡ r.0.ptr) × (r.1.contents ≡ replicate len None)
        × (r.2.at ≡ r.0.ptr) × (r.2.len ≡ len) × (r.2.alloc ≡ alloc.now)) }
{
    match alloc.allocate(len * size_of::<T>(), align_of::<T>()) {
        Ok(block) => {
            let base = Base {
                ptr: block as *mut T,
            };
            Ok((
                base,
                Slots { mark: PhantomData },
                Deed { mark: PhantomData },
            ))
        }
        Err(error) => Err(error),
    }
}

/// What the slots hold is forgotten: it needs no drop.
pub(crate) fn deallocate<T, A: Allocator>(
    alloc: &A,
    base: Base<T>,
    len: usize,
    slots: Slots<T>,
    deed: Deed<T, A>,
)
    requires { (slots.at ≡ base.ptr) × (length slots.contents ≡ len)
        × (deed.at ≡ base.ptr) × (deed.len ≡ len) × (deed.alloc ≡ alloc.now) }
{
    let Slots { mark: _ } = slots;
    let Deed { mark: _ } = deed;
    unsafe {
        alloc.deallocate(base.ptr as *mut u8, len * size_of::<T>(), align_of::<T>());
    }
}

impl<T> Slots<T> {
    /// Fills an empty slot.
    pub(crate) fn write(&mut self, base: Base<T>, index: usize, item: T)
        requires { (base.ptr ≡ self.old.at) × (index < length self.old.contents)
            × (get_or self.old.contents index None ≡ None) }
        ensures { (self.new.at ≡ self.old.at)
            × (self.new.contents ≡ slice_set self.old.contents index (Some item)) }
    {
        unsafe { base.ptr.add(index).write(item) }
    }

    /// The `len` values from `from` on.
    pub(crate) fn slice(&self, base: Base<T>, from: usize, len: usize) -> &[T]
        requires { (base.ptr ≡ self.now.at) × IsFilled self.now.contents from len }
        ensures { take len (drop from self.now.contents) ≡ map Some result.now }
    {
        unsafe { slice::from_raw_parts(base.ptr.add(from), len) }
    }

    /// The slots before `mid`, and those from it on with where they begin.
    pub(crate) fn split(self, base: Base<T>, mid: usize) -> (Slots<T>, Base<T>, Slots<T>)
        requires { (base.ptr ≡ self.at) × (mid ≤ length self.contents) }
        ensures front { (result.0.at ≡ self.at) × (result.0.contents ≡ take mid self.contents) }
        ensures back { (result.2.at ≡ result.1.ptr) × (result.2.contents ≡ drop mid self.contents) }
        ensures next { result.1.ptr ≡ ptr_add T.row mid self.at }
    {
        let Slots { mark: _ } = self;
        let next = Base {
            ptr: unsafe { base.ptr.add(mid) },
        };
        (
            Slots { mark: PhantomData },
            next,
            Slots { mark: PhantomData },
        )
    }

    /// Slots that lie side by side, as one.
    pub(crate) fn join(self, other: Slots<T>) -> Slots<T>
        requires beside { other.at ≡ ptr_add T.row (length self.contents) self.at }
        requires fits { FitsInBlock T.row (length self.contents + length other.contents) }
        ensures { (result.at ≡ self.at) × (result.contents ≡ self.contents ++ other.contents) }
    {
        let Slots { mark: _ } = self;
        let Slots { mark: _ } = other;
        Slots { mark: PhantomData }
    }
}
