// A value in its range: the range is asked once, and its type says from then on that it holds.
ghost use Rattle.std.specs.Prelude.{⊤, ◌≡◌, Bool, true, IsTrue, IsSome, IfSome, ◌↔◌};

use std::alloc::AllocError;

// What has a range that a value of the type may lie outside of.
pub trait Ranged: Copy {
    ghost ranged: { Self → Bool };

    fn in_range(self) -> bool
        ensures { result ≡ ranged self };
}

// A value that its range was asked of. The field is read by get alone, so nothing changes it afterwards.
pub struct InRange<T: Ranged> {
    value: T,
    ghost holds: { T.ranged value ≡ true },
}

// Written out, since no derive reads a ghost field of a type that is a parameter.
impl<T: Ranged> Clone for InRange<T> {
    ghost is_clone = { λ x y. y ≡ x };

    ghost is_infallible = { λ _. ⊤ };

    fn clone(&self) -> Result<InRange<T>, AllocError> {
        Ok(*self)
    }
}

impl<T: Ranged> Copy for InRange<T> {}

impl<T: Ranged> InRange<T> {
    // Of a value that is known to lie in its range.
    pub fn of(value: T) -> InRange<T>
        requires { T.ranged value ≡ true }
        ensures { result.value ≡ value }
    {
        InRange { value }
    }

    // Of any value: none if it lies outside.
    pub fn checked(value: T) -> Option<InRange<T>>
        ensures found { IsSome result ↔ IsTrue (T.ranged value) }
        ensures same { IfSome result (λ held. held.value ≡ value) }
    {
        if value.in_range() {
            Some(InRange { value })
        } else {
            None
        }
    }

    pub fn get(self) -> T
        ensures value { result ≡ self.value }
        ensures ranged { T.ranged result ≡ true }
    {
        self.value
    }
}
