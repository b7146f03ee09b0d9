// The numbers that are holders, and those that are quotas.
ghost use Rattle.std.specs.Prelude.{◌≡◌};
ghost use Rattle.book.specs.Ranges.{is_holder, is_quota};

// The largest quota, and the first and the last number of a holder.
pub const MOST_QUOTA: u32 = 511;

pub const FIRST_HOLDER: u32 = 1;

pub const LAST_HOLDER: u32 = 65_535;

// Whether the number is a quota.
pub fn is_quota(number: u32) -> bool
    ensures { result ≡ is_quota number }
{
    number <= MOST_QUOTA
}

// Whether the number is a holder's.
pub fn is_holder(number: u32) -> bool
    ensures { result ≡ is_holder number }
{
    (FIRST_HOLDER..=LAST_HOLDER).contains(&number)
}
