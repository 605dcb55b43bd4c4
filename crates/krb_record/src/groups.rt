//! Which of a sender's texts go together.

ghost use Rattle.std.specs.Prelude.{◌≡◌, ◌≢◌, ◌≤◌, ℕ, List, [], ◌∷◌, length, map, take, drop, All};
ghost use Rattle.std.specs.List.{flat_map};
ghost use Rattle.krb_base.specs.Limits.{batch_limit};
ghost use Rattle.krb_record.specs.Batch.{IsBatch};
ghost use Rattle.krb_record.specs.Groups.{IsFirstGroup, AreGroups, groups};

use krb_base::{BATCH_SIZE_LIMIT, Bytes};

/// How many texts the first group of `texts` has, if a group has at most `batch`.
///
/// It is the longest prefix of at most `batch` texts that take at most [`BATCH_SIZE_LIMIT`] bytes,
/// for each text its length and four, or the first text alone if that prefix is empty.
pub fn group_end(texts: &[Bytes], batch: usize) -> usize
    requires { texts.now ≢ [] }
    ensures { IsFirstGroup batch texts.now result }
{
    let mut size = 0;
    for (i, text) in texts.iter().enumerate() {
        size += 4 + text.as_slice().len();
        if batch <= i || BATCH_SIZE_LIMIT < size {
            return i.max(1);
        }
    }
    texts.len()
}

/// The laws of groups, if a group has at most `b` texts.
///
/// Texts have groups (`some`), and no others (`only`). The groups joined are the texts (`joined`),
/// and each has at least one text and at most `b` (`sizes`), so if `b` is 1 each text is a group of
/// its own (`single`). A group of two or more texts is a batch (`batch`). After the first group
/// come the groups of the texts after it (`next`), and likewise after the first k (`following`).
pub fn group_laws()
    ensures some { (b : ℕ) (texts : List (List ℕ)) → AreGroups b texts (groups b texts) }
    ensures only { (b : ℕ) (texts : List (List ℕ)) (parts : List (List (List ℕ)))
        → AreGroups b texts parts → parts ≡ groups b texts }
    ensures joined { (b : ℕ) (texts : List (List ℕ))
        → flat_map (λ group. group) (groups b texts) ≡ texts }
    ensures sizes { (b : ℕ) (texts : List (List ℕ)) → 1 ≤ b
        → All (λ group. (1 ≤ length group) × (length group ≤ b)) (groups b texts) }
    ensures single { (texts : List (List ℕ)) → groups 1 texts ≡ map (λ text. text ∷ []) texts }
    ensures batch { (b : ℕ) (texts : List (List ℕ)) → b ≤ batch_limit
        → All (λ group. 2 ≤ length group → IsBatch group) (groups b texts) }
    ensures next { (b n : ℕ) (texts : List (List ℕ)) → texts ≢ [] → IsFirstGroup b texts n
        → groups b texts ≡ take n texts ∷ groups b (drop n texts) }
    ensures following { (b k : ℕ) (texts : List (List ℕ))
        → let passed = length (flat_map (λ group. group) (take k (groups b texts))) in
        groups b (drop passed texts) ≡ drop k (groups b texts) }
{}
