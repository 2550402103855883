// Up to four things, one for each line of a rule. An enum and no vector of fixed capacity, since a record is plain data
// that is copied. The arms for each length stand here, once for all callers.
ghost use Rattle.std.specs.Prelude.{◌≡◌, ◌<◌, Bool, [], ◌∷◌, ◌++◌, length, map, take, zip, MatchOption};
ghost use Rattle.std.specs.Iterator.{YieldsFirst, item_count, ActsAs};
ghost use Rattle.std.specs.List.{slice_get, list_any};
ghost use Rattle.terms.specs.Few.{few_list};
ghost use Rattle.terms.specs.Lists.{all};

#[derive(Clone, Copy, Debug, PartialEq, Eq)]
pub enum Few<T> {
    Nothing,
    One(T),
    Two(T, T),
    Three(T, T, T),
    Four(T, T, T, T),
}

impl<T: Copy> Few<T> {
    pub fn len(&self) -> usize
        ensures { result ≡ length (few_list self.now) }
    {
        match self {
            Few::Nothing => 0,
            Few::One(_) => 1,
            Few::Two(_, _) => 2,
            Few::Three(_, _, _) => 3,
            Few::Four(_, _, _, _) => 4,
        }
    }

    // The thing at place i, from 0.
    pub fn get(&self, i: usize) -> Option<T>
        ensures { result ≡ slice_get (few_list self.now) i }
    {
        self.into_iter().nth(i)
    }

    // The first thing and the others, if there is one.
    pub fn split_first(self) -> Option<(T, Few<T>)>
        ensures { MatchOption result (few_list self ≡ []) (λ parted. few_list self ≡ parted.0 ∷ few_list parted.1) }
    {
        match self {
            Few::Nothing => None,
            Few::One(a) => Some((a, Few::Nothing)),
            Few::Two(a, b) => Some((a, Few::One(b))),
            Few::Three(a, b, c) => Some((a, Few::Two(b, c))),
            Few::Four(a, b, c, d) => Some((a, Few::Three(b, c, d))),
        }
    }

    // One thing more behind the others; a fifth finds no place.
    pub fn with(self, next: T) -> Few<T>
        ensures { few_list result ≡ take 4 (few_list self ++ next ∷ []) }
    {
        match self {
            Few::Nothing => Few::One(next),
            Few::One(a) => Few::Two(a, next),
            Few::Two(a, b) => Few::Three(a, b, next),
            Few::Three(a, b, c) => Few::Four(a, b, c, next),
            Few::Four(a, b, c, d) => Few::Four(a, b, c, d),
        }
    }

    // One thing more before the others; the last of four loses its place.
    pub fn led_by(self, first: T) -> Few<T>
        ensures { few_list result ≡ take 4 (first ∷ few_list self) }
    {
        match self {
            Few::Nothing => Few::One(first),
            Few::One(a) => Few::Two(first, a),
            Few::Two(a, b) => Few::Three(first, a, b),
            Few::Three(a, b, c) | Few::Four(a, b, c, _) => Few::Four(first, a, b, c),
        }
    }

    pub fn map<U: Copy, F: FnMut(T) -> U>(self, mut f: F) -> Few<U>
        requires { F.IsAlwaysCallable f }
        ensures { (h : T → U) → ActsAs F.FnMut f h → few_list result ≡ map h (few_list self) }
    {
        match self {
            Few::Nothing => Few::Nothing,
            Few::One(a) => Few::One(f(a)),
            Few::Two(a, b) => Few::Two(f(a), f(b)),
            Few::Three(a, b, c) => Few::Three(f(a), f(b), f(c)),
            Few::Four(a, b, c, d) => Few::Four(f(a), f(b), f(c), f(d)),
        }
    }

    // Whether one of the things passes a test. Here and in `all` each place is spelled out, once for all callers: over
    // the iterator below, the library's methods leave goals that no search closes.
    pub fn any<F: FnMut(T) -> bool>(self, mut test: F) -> bool
        requires { F.IsAlwaysCallable test }
        ensures { (h : T → Bool) → ActsAs F.FnMut test h → result ≡ list_any h (few_list self) }
    {
        match self {
            Few::Nothing => false,
            Few::One(a) => test(a),
            Few::Two(a, b) => test(a) || test(b),
            Few::Three(a, b, c) => test(a) || test(b) || test(c),
            Few::Four(a, b, c, d) => test(a) || test(b) || test(c) || test(d),
        }
    }

    // Whether each of the things passes a test.
    pub fn all<F: FnMut(T) -> bool>(self, mut test: F) -> bool
        requires { F.IsAlwaysCallable test }
        ensures { (h : T → Bool) → ActsAs F.FnMut test h → result ≡ all h (few_list self) }
    {
        match self {
            Few::Nothing => true,
            Few::One(a) => test(a),
            Few::Two(a, b) => test(a) && test(b),
            Few::Three(a, b, c) => test(a) && test(b) && test(c),
            Few::Four(a, b, c, d) => test(a) && test(b) && test(c) && test(d),
        }
    }

    // The things with those at the same places of others, as far as both go; down both lists, as the definition goes.
    pub fn zip<U: Copy>(self, others: Few<U>) -> Few<(T, U)>
        ensures { few_list result ≡ zip (few_list self) (few_list others) }
    {
        let Some((a, after_a)) = self.split_first() else {
            return Few::Nothing;
        };
        let Some((s, after_s)) = others.split_first() else {
            return Few::Nothing;
        };
        after_a.zip(after_s).led_by((a, s))
    }
}

// The things of a `Few` that are still to come.
#[derive(Clone, Copy)]
pub struct Rest<T> {
    few: Few<T>,
}

impl<T: Copy> Iterator for Rest<T> {
    type Item = T;

    ghost next_gives = { YieldsFirst (λ rest. few_list rest.few) };

    ghost remaining = { item_count (λ rest. few_list rest.few) };

    fn next(&mut self) -> Option<T> {
        let (first, few) = self.few.split_first()?;
        self.few = few;
        Some(first)
    }
}

impl<T: Copy> IntoIterator for Few<T> {
    type Item = T;

    type IntoIter = Rest<T>;

    ghost into_iter_gives = { λ few rest. rest.few ≡ few };

    fn into_iter(self) -> Rest<T> {
        Rest { few: self }
    }
}
