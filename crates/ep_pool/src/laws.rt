//! The laws of pools and their JSON.

ghost use Rattle.std.specs.Prelude.{◌≡◌, ◌≤◌, List, length};
ghost use Rattle.std.specs.List.{IsDistinct};
ghost use Rattle.serde_json.specs.Data.{Data};
ghost use Rattle.ep_attr.specs.AttrMap.{Pair};
ghost use Rattle.ep_pool.specs.Json.{pool_json};
ghost use Rattle.ep_pool.specs.Pool.{same_pair};
ghost use Rattle.ep_pool.specs.Read.{AreTexts, IsBadAs, IsPoolOf, most_number};
ghost use Rattle.ep_pool.specs.declared.from_json.PoolBad.{PoolBad};

/// The JSON of a pool of well-formed texts is that pool's.
pub fn json_is_read_back()
    ensures { (ps : List Pair) → length ps ≤ most_number → AreTexts ps → IsPoolOf (pool_json ps) ps }
{}

/// No value is two pools, or bad for two causes, or both.
pub fn a_value_has_one_answer()
    ensures pool { (d : Data) (ps qs : List Pair) → IsPoolOf d ps → IsPoolOf d qs → ps ≡ qs }
    ensures cause { (d : Data) (e f : PoolBad) → IsBadAs d e → IsBadAs d f → e ≡ f }
    ensures either { (d : Data) (ps : List Pair) (e : PoolBad) → IsDistinct same_pair ps → IsPoolOf d ps → IsBadAs d e → ⊥ }
{}
