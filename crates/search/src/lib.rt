#![tactic(auto)]

// Finite search: the code of network's `first`. Every loop that looks for the first of something, but
// for nodeset's over the words of a set, is this one.
ghost use Rattle.std.specs.Prelude.{◌≡◌, ℕ, ◌<◌, Option};
ghost use Rattle.network.specs.Search.{first};

/// The first of f(0), f(1), .. f(k - 1) that finds something.
pub fn first<T, F: Fn(usize) -> Option<T>>(k: usize, f: F) -> Option<T>
    requires { (i : ℕ) → i < k → F.pre f i }
    ensures { (g : ℕ → Option T) → ((i : ℕ) (r : Option T) → i < k → F.post f i r → r ≡ g i)
        → result ≡ first k g }
{
    for i in 0..k {
        if let Some(found) = f(i) {
            return Some(found);
        }
    }
    None
}
