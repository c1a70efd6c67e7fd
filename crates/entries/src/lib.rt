// One entry of a row, as the four-byte number that it is in a bundle of n classes; nothing is taken apart further than a question needs.
// Ends are kept as stored, with 64 added.
#![tactic(auto)]

ghost use Rattle.std.specs.Prelude.{◌≡◌, true, ◌+◌, ◌-◌, ◌≤◌, ◌/◌, ◌%◌, leb};
ghost use Rattle.ground.specs.Chain.{refuse};
ghost use Rattle.entries.specs.Entries.{Int, Ref, Nullable, pair_ok, nullable_ok, dip_of, end_of, kind_of, class_of, is_int, is_top, is_reference, is_nullable, is_blank, is_type, is_of, may_be_of, no_end, argument_entry, matches, field_entry, matches_field};
ghost use Rattle.entries.specs.Fits.{may_go, takes, compare, want, want_entered, want_exited, want_both};
ghost use Rattle.entries.specs.Shorts.{short_number, short_in};
ghost use Rattle.entries.specs.Words.{entry_from};

// The greatest dip, the least and the greatest end.
const MAX_DIP: u8 = 63;

const MIN_END: u8 = 1;

const MAX_END: u8 = 127;

// 1,0,0,0 and 2,0,0,0.
const INT_WORD: u32 = 16777216;

const TOP_WORD: u32 = 33554432;

// The descriptor of an argument that is no class.
const INT: u8 = 255;

// How an entry falls short of its place: kind or class differs, the dip or the end is too small.
#[derive(Clone, Copy)]
pub enum Short {
    Kind,
    Dip,
    End,
}

impl Short {
    pub fn number(self) -> u8
        ensures { result ≡ short_number self }
    {
        match self {
            Short::Kind => 1,
            Short::Dip => 2,
            Short::End => 3,
        }
    }
}

fn kind_in(w: u32) -> u8
    ensures { result ≡ w / 16777216 }
{
    (w / 16777216) as u8
}

fn class_in(w: u32) -> u8
    ensures { result ≡ w / 65536 % 256 }
{
    (w / 65536 % 256) as u8
}

fn dip_in(w: u32) -> u8
    ensures { result ≡ w / 256 % 256 }
{
    (w / 256 % 256) as u8
}

fn end_in(w: u32) -> u8
    ensures { result ≡ w % 256 }
{
    (w % 256) as u8
}

#[tactic(auto, unfolding(crate::specs::Entries::pair_ok))]
fn pair_ok(n: u8, c: u8, d: u8, e: u8) -> bool
    ensures { result ≡ pair_ok n c d e }
{
    (c < n) & (d <= MAX_DIP) & (MIN_END <= e) & (e <= MAX_END)
}

#[tactic(auto, unfolding(crate::specs::Entries::nullable_ok))]
fn nullable_ok(n: u8, c: u8, d: u8, e: u8) -> bool
    ensures { result ≡ nullable_ok n c d e }
{
    (c < n) & (d == 0) & (e == 0)
}

pub fn is_reference(n: u8, w: u32) -> bool
    ensures { result ≡ is_reference (entry_from n w) }
{
    (kind_in(w) == 3) & pair_ok(n, class_in(w), dip_in(w), end_in(w))
}

pub fn is_nullable(n: u8, w: u32) -> bool
    ensures { result ≡ is_nullable (entry_from n w) }
{
    (kind_in(w) == 4) & nullable_ok(n, class_in(w), dip_in(w), end_in(w))
}

pub fn is_int(n: u8, w: u32) -> bool
    ensures { result ≡ is_int (entry_from n w) }
{
    w == INT_WORD
}

pub fn is_top(n: u8, w: u32) -> bool
    ensures { result ≡ is_top (entry_from n w) }
{
    w == TOP_WORD
}

pub fn is_blank(n: u8, w: u32) -> bool
    ensures { result ≡ is_blank (entry_from n w) }
{
    w == 0
}

// Most entries that change are asked this: told without a branch, since kinds follow each other as they like.
pub fn is_type(n: u8, w: u32) -> bool
    ensures { result ≡ is_type (entry_from n w) }
{
    is_int(n, w) | is_top(n, w) | is_reference(n, w) | is_nullable(n, w)
}

fn kind_of(n: u8, w: u32) -> u8
    ensures { result ≡ kind_of (entry_from n w) }
{
    if is_reference(n, w) {
        return 3;
    }
    if is_int(n, w) {
        return 1;
    }
    if is_top(n, w) {
        return 2;
    }
    if is_nullable(n, w) {
        return 4;
    }
    if is_blank(n, w) { 0 } else { 5 }
}

pub fn class_of(n: u8, w: u32) -> u8
    ensures { result ≡ class_of (entry_from n w) }
{
    if is_reference(n, w) | is_nullable(n, w) {
        class_in(w)
    } else {
        0
    }
}

pub fn dip_of(n: u8, w: u32) -> u16
    ensures { (result ≡ dip_of (entry_from n w)) × (result ≤ 255) }
{
    if is_reference(n, w) {
        dip_in(w) as u16
    } else {
        0
    }
}

pub fn end_of(n: u8, w: u32) -> u16
    ensures { (result ≡ end_of (entry_from n w)) × (result ≤ 255) }
{
    if is_reference(n, w) {
        end_in(w) as u16
    } else {
        64
    }
}

// A reference of class c.
pub fn is_of(n: u8, c: u8, w: u32) -> bool
    ensures { result ≡ is_of c (entry_from n w) }
{
    is_reference(n, w) & (class_of(n, w) == c)
}

// .. or one that may be null.
pub fn may_be_of(n: u8, c: u8, w: u32) -> bool
    ensures { result ≡ may_be_of c (entry_from n w) }
{
    (is_reference(n, w) | is_nullable(n, w)) & (class_of(n, w) == c)
}

// An entry that matches a descriptor.
#[tactic(auto, unfolding(crate::specs::Entries::matches))]
pub fn matches(n: u8, descriptor: u8, w: u32) -> bool
    ensures { result ≡ matches descriptor (entry_from n w) }
{
    if descriptor == INT {
        return is_int(n, w);
    }
    is_of(n, descriptor, w)
}

// An entry that matches a field's descriptor.
#[tactic(auto, unfolding(crate::specs::Entries::matches_field))]
pub fn matches_field(n: u8, descriptor: u8, w: u32) -> bool
    ensures { result ≡ matches_field descriptor (entry_from n w) }
{
    if descriptor == INT {
        return is_int(n, w);
    }
    may_be_of(n, descriptor, w)
}

pub fn may_go(n: u8, w: u32) -> bool
    ensures { result ≡ may_go (entry_from n w) }
{
    is_type(n, w) & (64 <= end_of(n, w))
}

// v takes w, pairs aside.
#[tactic(auto, unfolding(crate::specs::Fits::takes))]
fn takes(n: u8, v: u32, w: u32) -> bool
    ensures { result ≡ takes (entry_from n v) (entry_from n w) }
{
    if is_top(n, v) {
        return is_type(n, w);
    }
    if is_nullable(n, v) {
        return may_be_of(n, class_of(n, v), w);
    }
    (kind_of(n, w) == kind_of(n, v)) & (class_of(n, w) == class_of(n, v))
}

// The one comparison: a place that takes what comes or not, the pair (d, e) that comes, and the pair (x, y) that is wanted.
#[tactic(auto, unfolding(ground::specs::Chain::refuse))]
fn compared(taken: bool, d: u16, e: u16, x: u16, y: u16) -> Result<(), Short>
    ensures { short_in result ≡ refuse taken 1 (refuse (leb x d) 2 (refuse (leb y e) 3 0)) }
{
    if !taken {
        return Err(Short::Kind);
    }
    if d < x {
        return Err(Short::Dip);
    }
    if e < y {
        return Err(Short::End);
    }
    Ok(())
}

// .. where no pair is wanted.
#[tactic(auto, unfolding(ground::specs::Chain::refuse))]
fn fit(taken: bool) -> Result<(), Short>
    ensures { short_in result ≡ refuse taken 1 0 }
{
    if taken { Ok(()) } else { Err(Short::Kind) }
}

// w against v as it stands.
#[tactic(auto, unfolding(crate::specs::Fits::compare))]
pub fn compare(n: u8, w: u32, v: u32) -> Result<(), Short>
    ensures { short_in result ≡ compare (entry_from n w) (want (entry_from n v)) }
{
    compared(
        takes(n, v, w),
        dip_of(n, w),
        end_of(n, w),
        dip_of(n, v),
        end_of(n, v),
    )
}

// Both are references, and of one class: only their pairs are left to compare. It is so at nearly every lock that is taken or given back.
fn alike(n: u8, w: u32, v: u32) -> bool
    ensures { result ≡ true → (is_reference (entry_from n w) ≡ true) × (is_reference (entry_from n v) ≡ true) × (takes (entry_from n v) (entry_from n w) ≡ true) }
{
    is_reference(n, w) & is_reference(n, v) & (class_in(w) == class_in(v))
}

// monitorenter: w becomes v.
#[tactic(auto, unfolding(crate::specs::Fits::compare))]
pub fn compare_entered(n: u8, w: u32, v: u32) -> Result<(), Short>
    ensures { short_in result ≡ compare (entry_from n w) (want_entered (entry_from n v)) }
{
    if alike(n, w, v) {
        return compared(
            true,
            dip_in(w) as u16,
            end_in(w) as u16,
            (dip_in(v) as u16).saturating_sub(1),
            end_in(v) as u16 + 1,
        );
    }
    compared(
        takes(n, v, w),
        dip_of(n, w),
        end_of(n, w),
        dip_of(n, v).saturating_sub(1),
        end_of(n, v) + 1,
    )
}

// monitorexit: w becomes v.
#[tactic(auto, unfolding(crate::specs::Fits::compare))]
pub fn compare_exited(n: u8, w: u32, v: u32) -> Result<(), Short>
    ensures { short_in result ≡ compare (entry_from n w) (want_exited (entry_from n v)) }
{
    if alike(n, w, v) {
        return compared(
            true,
            dip_in(w) as u16,
            end_in(w) as u16,
            dip_in(v) as u16 + 1,
            (end_in(v) as u16).saturating_sub(1),
        );
    }
    compared(
        takes(n, v, w),
        dip_of(n, w),
        end_of(n, w),
        dip_of(n, v) + 1,
        end_of(n, v).saturating_sub(1),
    )
}

fn both_ends(n: u8, v: u32, u: u32) -> u16
    ensures { result ≡ end_of (entry_from n v) + end_of (entry_from n u) - 64 }
{
    (end_of(n, v) + end_of(n, u)).saturating_sub(64)
}

// load: w goes to v and to u.
#[tactic(auto, unfolding(crate::specs::Fits::compare))]
pub fn compare_both(n: u8, w: u32, v: u32, u: u32) -> Result<(), Short>
    ensures { short_in result ≡ compare (entry_from n w) (want_both (entry_from n v) (entry_from n u)) }
{
    compared(
        takes(n, v, w) & takes(n, u, w),
        dip_of(n, w),
        end_of(n, w),
        dip_of(n, v) + dip_of(n, u),
        both_ends(n, v, u),
    )
}

// Int against v.
pub fn compare_int(n: u8, v: u32) -> Result<(), Short>
    ensures { short_in result ≡ compare Int (want (entry_from n v)) }
{
    fit(is_int(n, v) | is_top(n, v))
}

// A class with (0,0) against v.
pub fn compare_made(n: u8, c: u8, v: u32) -> Result<(), Short>
    ensures { short_in result ≡ compare (Ref c 0 no_end) (want (entry_from n v)) }
{
    compared(
        is_top(n, v) | may_be_of(n, c, v),
        0,
        64,
        dip_of(n, v),
        end_of(n, v),
    )
}

// monitorenter on a class that may be null, but wasn't: its class with (0,0) becomes v.
pub fn compare_made_entered(n: u8, c: u8, v: u32) -> Result<(), Short>
    ensures { short_in result ≡ compare (Ref c 0 no_end) (want_entered (entry_from n v)) }
{
    compared(
        is_top(n, v) | may_be_of(n, c, v),
        0,
        64,
        dip_of(n, v).saturating_sub(1),
        end_of(n, v) + 1,
    )
}

fn compare_nullable(n: u8, c: u8, v: u32) -> Result<(), Short>
    ensures { short_in result ≡ compare (Nullable c) (want (entry_from n v)) }
{
    fit(is_top(n, v) | (is_nullable(n, v) & (class_of(n, v) == c)))
}

// What a field holds, as its type, against v.
#[tactic(auto, unfolding(crate::specs::Entries::field_entry))]
pub fn compare_field(n: u8, descriptor: u8, v: u32) -> Result<(), Short>
    ensures { short_in result ≡ compare (field_entry descriptor) (want (entry_from n v)) }
{
    if descriptor == INT {
        return compare_int(n, v);
    }
    compare_nullable(n, descriptor, v)
}

// An argument as its type against v.
#[tactic(auto, unfolding(crate::specs::Entries::argument_entry))]
pub fn compare_argument(n: u8, descriptor: u8, v: u32) -> Result<(), Short>
    ensures { short_in result ≡ compare (argument_entry descriptor) (want (entry_from n v)) }
{
    if descriptor == INT {
        return compare_int(n, v);
    }
    compare_made(n, descriptor, v)
}
