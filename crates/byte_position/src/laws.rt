ghost use Rattle.std.specs.Prelude.{◌≡◌, ℕ, ◌+◌, ◌-◌, ◌*◌, ◌/◌, ◌%◌, ◌<◌, ◌≤◌, ◌↔◌, ◌≢◌, true, false};
ghost use Rattle.byte_position.specs.Geometry.{IsSegmentSize, pages_of};
ghost use Rattle.byte_position.specs.Position.{header_size, usable_bytes_in_segment, is_in_header, position_of, address_of, end_address_of, first_position, HasPosition};

/// A law: byte positions and the addresses of bytes in no header undo each other.
pub fn positions_and_addresses_correspond()
    ensures address_of_position { (size address : ℕ) → IsSegmentSize size
        → is_in_header size address ≡ false → address_of size (position_of size address) ≡ address }
    ensures position_of_address { (size position : ℕ) → IsSegmentSize size
        → position_of size (address_of size position) ≡ position }
    ensures outside_headers { (size position : ℕ) → IsSegmentSize size
        → is_in_header size (address_of size position) ≡ false }
{}

/// A law: on the log's first page, that of segment 1, positions count on from the header's end to
/// the page's end.
pub fn first_page_counts_on()
    ensures outside_header { (size k : ℕ) → IsSegmentSize size → k < 8152
        → is_in_header size (size + 40 + k) ≡ false }
    ensures position { (size k : ℕ) → IsSegmentSize size → k ≤ 8152
        → position_of size (size + 40 + k) ≡ first_position size + k }
    ensures address { (size k : ℕ) → IsSegmentSize size → k < 8152
        → address_of size (first_position size + k) ≡ size + 40 + k }
    ensures end_address { (size k : ℕ) → IsSegmentSize size → 0 < k → k ≤ 8152
        → end_address_of size (first_position size + k) ≡ size + 40 + k }
    ensures second_page { (size : ℕ) → IsSegmentSize size
        → address_of size (first_position size + 8152) ≡ size + 8192 + 24 }
{}

/// A law: each page is a header, whose bytes have no position of their own, and bytes that count
/// on.
pub fn pages_count_on()
    ensures header { (size page k : ℕ) → IsSegmentSize size → k < header_size size page
        → is_in_header size (8192 * page + k) ≡ true }
    ensures rest { (size page k : ℕ) → IsSegmentSize size → header_size size page ≤ k → k < 8192
        → is_in_header size (8192 * page + k) ≡ false }
    ensures header_position { (size page k : ℕ) → IsSegmentSize size → k ≤ header_size size page
        → position_of size (8192 * page + k) ≡ position_of size (8192 * page) }
    ensures position { (size page k : ℕ) → IsSegmentSize size → k ≤ 8192 - header_size size page
        → position_of size (8192 * page + header_size size page + k)
        ≡ position_of size (8192 * page) + k }
    ensures next_page { (size page : ℕ) → IsSegmentSize size
        → position_of size (8192 * (page + 1))
        ≡ position_of size (8192 * page) + (8192 - header_size size page) }
    ensures address { (size page k : ℕ) → IsSegmentSize size → k < 8192 - header_size size page
        → address_of size (position_of size (8192 * page) + k)
        ≡ 8192 * page + header_size size page + k }
    ensures page_of_position { (size position : ℕ) → IsSegmentSize size
        → (position_of size (8192 * (address_of size position / 8192)) ≤ position)
        × (position < position_of size (8192 * (address_of size position / 8192 + 1))) }
{}

/// A law: positions and addresses rise together.
pub fn positions_and_addresses_rise()
    ensures position { (size a b : ℕ) → IsSegmentSize size → a ≤ b
        → position_of size a ≤ position_of size b }
    ensures address { (size p q : ℕ) → IsSegmentSize size → p < q
        → address_of size p < address_of size q }
    ensures both { (size p a : ℕ) → IsSegmentSize size
        → (address_of size p < a) ↔ (p < position_of size a) }
    ensures position_below { (size a : ℕ) → IsSegmentSize size → position_of size a ≤ a }
    ensures address_near { (size p : ℕ) → IsSegmentSize size
        → (p ≤ address_of size p) × (address_of size p ≤ 2 * p + 40) }
{}

/// A law: each word of 8 bytes is in one header or in none, and stands at multiples of 8.
pub fn words_stay_whole()
    ensures header { (size k i : ℕ) → IsSegmentSize size → i < 8
        → is_in_header size (8 * k + i) ≡ is_in_header size (8 * k) }
    ensures inside { (size k i : ℕ) → IsSegmentSize size → i ≤ 8 → is_in_header size (8 * k) ≡ true
        → position_of size (8 * k + i) ≡ position_of size (8 * k) }
    ensures outside { (size k i : ℕ) → IsSegmentSize size → i ≤ 8
        → is_in_header size (8 * k) ≡ false
        → position_of size (8 * k + i) ≡ position_of size (8 * k) + i }
    ensures position { (size k : ℕ) → IsSegmentSize size → position_of size (8 * k) % 8 ≡ 0 }
    ensures address { (size p : ℕ) → IsSegmentSize size → p % 8 ≡ 0 → address_of size p % 8 ≡ 0 }
    ensures in_word { (size p i : ℕ) → IsSegmentSize size → p % 8 ≡ 0 → i < 8
        → address_of size (p + i) ≡ address_of size p + i }
    ensures end_address { (size p : ℕ) → IsSegmentSize size → p % 8 ≡ 0
        → end_address_of size p % 8 ≡ 0 }
{}

/// A law: the end address is just behind the byte before a position. At a page's first position
/// that is the page's start; elsewhere it is the position's own address.
pub fn end_addresses_follow_the_byte_before()
    ensures behind { (size p : ℕ) → end_address_of size (p + 1) ≡ address_of size p + 1 }
    ensures page_start { (size page : ℕ) → IsSegmentSize size
        → end_address_of size (position_of size (8192 * page)) ≡ 8192 * page }
    ensures elsewhere { (size p : ℕ) → IsSegmentSize size
        → ((page : ℕ) → p ≢ position_of size (8192 * page))
        → end_address_of size p ≡ address_of size p }
    ensures position { (size p : ℕ) → IsSegmentSize size
        → position_of size (end_address_of size p) ≡ p }
    ensures has_position { (size p : ℕ) → IsSegmentSize size
        → HasPosition size (end_address_of size p) }
    ensures both { (size p a : ℕ) → IsSegmentSize size
        → (end_address_of size p ≤ a) ↔ (p ≤ position_of size a) }
    ensures rises { (size p q : ℕ) → IsSegmentSize size → p < q
        → end_address_of size p < end_address_of size q }
{}

/// A law: each segment has as many positions as the others.
pub fn segments_count_on()
    ensures next_segment { (size n : ℕ) → IsSegmentSize size
        → position_of size (size * (n + 1))
        ≡ position_of size (size * n) + usable_bytes_in_segment size }
    ensures segment { (size n : ℕ) → IsSegmentSize size
        → position_of size (size * n) ≡ n * usable_bytes_in_segment size }
    ensures first { (size : ℕ) → IsSegmentSize size
        → first_position size ≡ usable_bytes_in_segment size }
{}
