//! An index of places by hashes.
ghost use Rattle.std.specs.Prelude.{◌≡◌, ◌<◌, [], ◌∷◌, ◌++◌, length, replicate, Some, slice_get, option_copied, IfOk, OnOk, OnErr};
ghost use Rattle.dense_dict.specs.Index.{bucket, has_hash, shares, last_where, hashes, IsLinked};

use copy_lists::NoMemory;
use std::alloc::Global;

/// A place's hash, and one more than the last place before it that is in its bucket, or 0.
#[derive(Clone, Copy)]
pub(crate) struct Link {
    hash: u64,
    next: usize,
}

/// An index of places by their hashes: each bucket of hashes has one more than its last place, or 0, and from there on each
/// place has the one before it.
#[derive(Drop)]
pub(crate) struct HashIndex {
    heads: Vec<usize>,
    links: Vec<Link>,
}

impl HashIndex {
    pub(crate) fn new(alloc: Global) -> HashIndex
        ensures hashes { hashes result ≡ [] }
        ensures linked { IsLinked result }
    {
        HashIndex {
            heads: Vec::new(alloc),
            links: Vec::new(alloc),
        }
    }

    /// One more than the last place that has the hash, or 0.
    pub(crate) fn newest(&self, hash: u64) -> usize
        requires { IsLinked self.now }
        ensures { result ≡ last_where (has_hash hash self.now) (length (hashes self.now)) }
    {
        if self.heads.is_empty() {
            return 0;
        }
        let head = self.head(hash);
        self.walk(head, hash)
    }

    /// One more than the last place before this one that has its hash, or 0.
    pub(crate) fn older(&self, place: usize, hash: u64) -> usize
        requires linked { IsLinked self.now }
        requires hash { slice_get (hashes self.now) place ≡ Some hash }
        ensures { result ≡ last_where (has_hash hash self.now) place }
    {
        match self.link(place) {
            Some(link) => self.walk(link.next, hash),
            None => 0,
        }
    }

    fn buckets(&self) -> usize
        ensures { result ≡ length self.now.heads.items }
    {
        self.heads.len()
    }

    /// How many places there are.
    fn places(&self) -> usize
        ensures { result ≡ length self.now.links.items }
    {
        self.links.len()
    }

    fn link(&self, place: usize) -> Option<&Link>
        ensures { option_copied result ≡ slice_get self.now.links.items place }
    {
        self.links.get(place)
    }

    /// One more than the last place in the hash's bucket, or 0.
    #[tactic(auto, using(crate::proofs::Walks::head_is))]
    fn head(&self, hash: u64) -> usize
        requires linked { IsLinked self.now }
        requires some { 0 < length self.now.heads.items }
        ensures { result ≡ last_where (shares hash self.now) (length self.now.links.items) }
    {
        self.heads[bucket(self.buckets(), hash)]
    }

    /// One more than the last place that has the hash, from a place in the hash's bucket on.
    fn walk(&self, start: usize, hash: u64) -> usize
        requires linked { IsLinked self.now }
        requires start { start ≡ last_where (shares hash self.now) start }
        ensures { result ≡ last_where (has_hash hash self.now) start }
    {
        let mut at = start;
        while at > 0 {
            let Some(link) = self.link(at - 1) else {
                return 0;
            };
            if link.hash == hash {
                return at;
            }
            at = link.next;
        }
        0
    }
}

// Changes.
impl HashIndex {
    /// An empty index with so many buckets.
    #[tactic(auto, using(crate::proofs::Growth::none_linked))]
    fn sized(alloc: Global, buckets: usize) -> Result<HashIndex, NoMemory>
        requires { 0 < buckets }
        ensures hashes { IfOk result (λ index. hashes index ≡ []) }
        ensures linked { IfOk result (λ index. IsLinked index) }
        ensures some { IfOk result (λ index. 0 < length index.heads.items) }
    {
        let heads = zeros(alloc, buckets)?;
        Ok(HashIndex {
            heads,
            links: Vec::new(alloc),
        })
    }

    /// Adds a place after all others.
    pub(crate) fn push(&mut self, hash: u64) -> Result<(), NoMemory>
        requires { IsLinked self.old }
        ensures linked { IsLinked self.new }
        ensures ok { OnOk result (hashes self.new ≡ hashes self.old ++ hash ∷ []) }
        ensures err { OnErr result (hashes self.new ≡ hashes self.old) }
    {
        if self.links.len() >= self.heads.len() / 2 {
            let larger = self.grown()?;
            *self = larger;
        }
        self.add(hash)
    }

    /// Adds a place after all others, where there are buckets.
    fn add(&mut self, hash: u64) -> Result<(), NoMemory>
        requires linked { IsLinked self.old }
        requires some { 0 < length self.old.heads.items }
        ensures linked { IsLinked self.new }
        ensures some { 0 < length self.new.heads.items }
        ensures ok { OnOk result (hashes self.new ≡ hashes self.old ++ hash ∷ []) }
        ensures err { OnErr result (hashes self.new ≡ hashes self.old) }
    {
        let next = self.head(hash);
        let at = bucket(self.buckets(), hash);
        self.links.push(Link { hash, next })?;
        let places = self.places();
        self.heads[at] = places;
        Ok(())
    }

    /// The same places in twice as many buckets.
    fn grown(&self) -> Result<HashIndex, NoMemory>
        ensures hashes { IfOk result (λ index. hashes index ≡ hashes self.now) }
        ensures linked { IfOk result (λ index. IsLinked index) }
        ensures some { IfOk result (λ index. 0 < length index.heads.items) }
    {
        let buckets = self.heads.len().saturating_mul(2).max(8);
        let mut index = HashIndex::sized(*self.links.allocator(), buckets)?;
        for link in self.links.as_slice() {
            index.add(link.hash)?;
        }
        Ok(index)
    }

    /// The same index.
    pub(crate) fn copy(&self) -> Result<HashIndex, NoMemory>
        requires { IsLinked self.now }
        ensures hashes { IfOk result (λ index. hashes index ≡ hashes self.now) }
        ensures linked { IfOk result (λ index. IsLinked index) }
    {
        let mut heads = Vec::new(*self.links.allocator());
        heads.extend_from_slice(&self.heads)?;
        let mut links = Vec::new(*self.links.allocator());
        links.extend_from_slice(&self.links)?;
        Ok(HashIndex { heads, links })
    }
}

fn zeros(alloc: Global, len: usize) -> Result<Vec<usize>, NoMemory>
    ensures { IfOk result (λ items. items.items ≡ replicate len 0) }
{
    let mut items = Vec::new(alloc);
    for _ in 0..len {
        items.push(0)?;
    }
    Ok(items)
}

/// The bucket of a hash among so many.
fn bucket(buckets: usize, hash: u64) -> usize
    requires { 0 < buckets }
    ensures bucket { result ≡ bucket buckets hash }
    ensures within { result < buckets }
{
    (hash & (buckets - 1) as u64) as usize
}
