// Variables of a table alone.

ghost use Rattle.std.specs.Prelude.{◌≡◌, true, length};
ghost use Rattle.cdi.specs.Walk.{Found, walk};
ghost use Rattle.cdi.specs.Plans.{is_plan, segments_of, variable_of, locating};
ghost use Rattle.listing_fill.specs.Batch.{batch, listed, listing, out_after};
ghost use Rattle.outcomes.specs.Outcomes.{number_in, value_after};

// Variable n of any table; or 20, 21.
#[unsafe(no_mangle)]
pub extern "C" fn planksling_locate(
    table: &[i64],
    n: u64,
    record_number: &mut usize,
    space: &mut u64,
    address: &mut u64,
    size: &mut u64,
    kind: &mut u64,
) -> usize
    ensures value { result ≡ number_in (locating table.now n) }
    ensures record_number_after { record_number.new ≡ value_after (λ (a : Found). a.number) (locating table.now n) record_number.old }
    ensures space_after { space.new ≡ value_after (λ (a : Found). a.space) (locating table.now n) space.old }
    ensures address_after { address.new ≡ value_after (λ (a : Found). a.address) (locating table.now n) address.old }
    ensures size_after { size.new ≡ value_after (λ (a : Found). a.size) (locating table.now n) size.old }
    ensures kind_after { kind.new ≡ value_after (λ (a : Found). a.kind) (locating table.now n) kind.old }
{
    planksling::locating::planksling_locate(table, n, record_number, space, address, size, kind)
}

// The variables n, n + 1, .. of any table, five numbers each, as many as there is room for or remain; or 20.
#[unsafe(no_mangle)]
pub extern "C" fn planksling_list(
    table: &[i64],
    n: u64,
    out: &mut [u64],
    count: &mut usize,
) -> usize
    ensures value { result ≡ number_in (listing table.now n out.old) }
    ensures count_after { count.new ≡ value_after (λ a. a) (listing table.now n out.old) count.old }
    ensures out_after { out.new ≡ out_after table.now n out.old }
{
    planksling::locating::planksling_list(table, n, out, count)
}

// Variable n of a table that is a plan; or 21.
#[unsafe(no_mangle)]
pub extern "C" fn planksling_locate_checked(
    table: &[i64],
    n: u64,
    record_number: &mut usize,
    space: &mut u64,
    address: &mut u64,
    size: &mut u64,
    kind: &mut u64,
) -> usize
    requires { is_plan table.now ≡ true }
    ensures value { result ≡ number_in (variable_of (segments_of table.now) n) }
    ensures record_number_after { record_number.new ≡ value_after (λ (a : Found). a.number) (variable_of (segments_of table.now) n) record_number.old }
    ensures space_after { space.new ≡ value_after (λ (a : Found). a.space) (variable_of (segments_of table.now) n) space.old }
    ensures address_after { address.new ≡ value_after (λ (a : Found). a.address) (variable_of (segments_of table.now) n) address.old }
    ensures size_after { size.new ≡ value_after (λ (a : Found). a.size) (variable_of (segments_of table.now) n) size.old }
    ensures kind_after { kind.new ≡ value_after (λ (a : Found). a.kind) (variable_of (segments_of table.now) n) kind.old }
{
    planksling::locating::planksling_locate_checked(
        table,
        n,
        record_number,
        space,
        address,
        size,
        kind,
    )
}

// The variables n, n + 1, .. of a table that is a plan. Returns how many: it can't be refused.
#[unsafe(no_mangle)]
pub extern "C" fn planksling_list_checked(table: &[i64], n: u64, out: &mut [u64]) -> usize
    requires { is_plan table.now ≡ true }
    ensures value { result ≡ length (batch (walk (segments_of table.now)) n out.old) }
    ensures out_after { out.new ≡ listed (walk (segments_of table.now)) n out.old }
{
    planksling::locating::planksling_list_checked(table, n, out)
}
