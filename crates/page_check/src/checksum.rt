//! The checksum of a page, and the check of a page that is a certain block.
ghost use Rattle.std.specs.Prelude.{◌≡◌, ◌≢◌, ◌↔◌, ℕ, List, ◌+◌, ◌*◌, ◌≤◌, ◌<◌, length, take};
ghost use Rattle.std.specs.Prelude.{slice_index, IsTrue, All, true, false};
ghost use Rattle.page_check.specs.Fields.{header_of};
ghost use Rattle.page_check.specs.Verdict.{verdict_of, is_sane, IsValid};
ghost use Rattle.page_check.specs.Checksum.{sum_with_word, word_of, column_sum, columns_joined};
ghost use Rattle.page_check.specs.Checksum.{checksum_of, without_checksum, has_checksum, verdict_as};

use crate::{Page, Verdict, check, header, read_u32};

/// How many columns are summed side by side: `N_SUMS` of `checksum_impl.h`.
const COLUMNS: usize = 32;

/// How many bytes a row of words has, and how many rows a page.
const ROW: usize = 4 * COLUMNS;

const ROWS: usize = 64;

/// `FNV_PRIME` of `checksum_impl.h`.
const PRIME: u32 = 16_777_619;

/// `checksumBaseOffsets` of `checksum_impl.h`.
const BASE_OFFSETS: [u32; COLUMNS] = [
    0x5b1f_36e9,
    0xb852_5960,
    0x02ab_50aa,
    0x1de6_6d2a,
    0x79ff_467a,
    0x9bb9_f8a3,
    0x217e_7cd2,
    0x83e1_3d2c,
    0xf8d4_474f,
    0xe39e_b970,
    0x42c6_ae16,
    0x9932_16fa,
    0x7b09_3b5d,
    0x98da_ff3c,
    0xf718_902a,
    0x0b1c_9cdb,
    0xe58f_764b,
    0x1876_36bc,
    0x5d7b_3bb1,
    0xe73d_e7de,
    0x92be_c979,
    0xcca6_c0b2,
    0x304a_0979,
    0x85aa_43d4,
    0x7831_25bb,
    0x6ca8_eaa2,
    0xe407_eac6,
    0x4b5c_fc3e,
    0x9fbf_8c76,
    0x15ca_20be,
    0xf2ca_9fd3,
    0x959b_d756,
];

// `CHECKSUM_COMP` of `checksum_impl.h`.
#[inline]
fn sum_with_word(sum: u32, word: u32) -> u32
    ensures { result ≡ sum_with_word sum word }
{
    let mixed = sum ^ word;
    mixed.wrapping_mul(PRIME) ^ (mixed >> 17)
}

// One row more in each column. The loop compiles to vector code.
#[inline]
fn add_row(sums: &mut [u32; COLUMNS], bytes: &[u8], row: usize)
    requires { 128 * row + 128 ≤ length bytes.now }
    ensures { (column : ℕ) → column < 32 → slice_index sums.new column
        ≡ sum_with_word (slice_index sums.old column) (word_of bytes.now row column) }
{
    for column in 0..COLUMNS {
        sums[column] = sum_with_word(sums[column], read_u32(bytes, ROW * row + 4 * column));
    }
}

// Two rows of zeros more in each column, and then all columns in one.
#[inline]
fn join(sums: &[u32; COLUMNS]) -> u32
    ensures { (page : List ℕ)
        → ((column : ℕ) → column < 32 → slice_index sums.now column ≡ column_sum page column 64)
        → result ≡ columns_joined page 32 }
{
    let mut joined = 0;
    for column in 0..COLUMNS {
        joined ^= sum_with_word(sum_with_word(sums[column], 0), 0);
    }
    joined
}

// The first row, with 0 in the place of the page's own checksum.
#[inline]
fn first_row(bytes: &[u8]) -> [u8; ROW]
    requires { 128 ≤ length bytes.now }
    ensures { result ≡ without_checksum (take 128 bytes.now) }
{
    let mut row = [0; ROW];
    row.copy_from_slice(&bytes[..ROW]);
    row[8] = 0;
    row[9] = 0;
    row
}

/// The checksum of a page that is this block of its relation (`pg_checksum_page`). The two bytes
/// that hold the page's own checksum count as 0.
pub fn page_checksum(page: &Page, block: u32) -> u16
    ensures { result ≡ checksum_of page.now block }
{
    let bytes = page.bytes();
    let mut sums = BASE_OFFSETS;
    add_row(&mut sums, &first_row(bytes), 0);
    for row in 1..ROWS {
        add_row(&mut sums, bytes, row);
    }
    ((join(&sums) ^ block) % 65535) as u16 + 1
}

/// Checks a page that is this block of its relation, as `PageIsVerified` of `bufpage.c` does with
/// checksums on, or off.
pub fn check_as(page: &Page, block: u32, checksums: bool) -> Verdict
    ensures verdict { result ≡ verdict_as checksums block page.now }
    ensures valid { result ≢ Verdict.Bad → IsValid page.now }

    // In plain words: with checksums off it is `check`; with checksums on a page that is not zeros
    // has a sane header, and the checksum that it is to have as this block.
    ensures off { checksums ≡ false → result ≡ verdict_of page.now }
    ensures zero { (result ≡ Verdict.Zero) ↔ All (λ byte. byte ≡ 0) page.now }
    ensures sane { checksums ≡ true → ((result ≡ Verdict.Sane) ↔ (IsTrue (is_sane (header_of
        page.now)) × ((header_of page.now).checksum ≡ checksum_of page.now block))) }
{
    if !checksums {
        return check(page);
    }
    match check(page) {
        Verdict::Sane => {
            if has_checksum(page, block) {
                Verdict::Sane
            } else {
                Verdict::Bad
            }
        }
        Verdict::Zero => Verdict::Zero,
        Verdict::Bad => Verdict::Bad,
    }
}

fn has_checksum(page: &Page, block: u32) -> bool
    ensures { result ≡ has_checksum block page.now }
{
    header(page).checksum == page_checksum(page, block)
}
