// The commands that the tests give, each with its files.

/// A command on the source or text `r.cpp` and the file `d.json`.
#[derive(Drop)]
pub struct Asked {
    pub words: &'static [&'static str],
    pub source: &'static str,
    pub given: &'static str,
}

// The sum of two memories, with all that an application has.
const VECADD: &str =
    "void Add(tapa::istream<int>& a, tapa::istream<int>& b, tapa::ostream<int>& c, uint64_t n) {
  for (uint64_t i = 0; i < n; ++i) { c << (a.read() + b.read()); } }
void Mmap2Stream(tapa::mmap<const int> mmap, uint64_t n, tapa::ostream<int>& stream) {
  for (uint64_t i = 0; i < n; ++i) { stream << mmap[i]; } }
void Stream2Mmap(tapa::istream<int>& stream, tapa::mmap<int> mmap, uint64_t n) {
  for (uint64_t i = 0; i < n; ++i) { stream >> mmap[i]; } }
void VecAdd(tapa::mmap<const int> a, tapa::mmap<const int> b, tapa::mmap<int> c, uint64_t n) {
  tapa::stream<int> a_q(\"a\"); tapa::stream<int> b_q(\"b\"); tapa::stream<int> c_q(\"c\");
  tapa::task().invoke(Mmap2Stream, a, n, a_q).invoke(Mmap2Stream, b, n, b_q)
    .invoke(Add, a_q, b_q, c_q, n).invoke(Stream2Mmap, c_q, c, n); }
";

const VECADD_DATA: &str =
    "{\"scalars\":{\"n\":3},\"memories\":{\"a\":[1,2,3],\"b\":[10,20,30],\"c\":[0,0,0]}}";

// Three tasks in a row.
const PATH: &str =
    "void P(tapa::ostream<uint64_t>& q) { for (uint64_t i = 0; i < 3; ++i) { q << i + 5; } }
void C(tapa::istream<uint64_t>& q, tapa::ostream<uint64_t>& r) {
  for (uint64_t j = 0; j < 3; ++j) { r << q.read() + 1; } }
void D(tapa::istream<uint64_t>& r) { for (uint64_t k = 0; k < 3; ++k) { uint64_t x = r.read(); } }
void T() { tapa::stream<uint64_t> q; tapa::stream<uint64_t> r;
  tapa::task().invoke(P, q).invoke(C, q, r).invoke(D, r); }
";

// A fork and a join whose streams are too shallow: a deadlock.
const CROSSING_STOPS: &str =
    "void A(tapa::ostream<uint64_t>& s1, tapa::ostream<uint64_t>& s2) { s1 << 1; s1 << 2; s2 << 3; }
void B(tapa::istream<uint64_t>& s1, tapa::istream<uint64_t>& s2) { s2.read(); s1.read(); s1.read(); }
void T() { tapa::stream<uint64_t, 1> s1; tapa::stream<uint64_t, 1> s2; tapa::task().invoke(A, s1, s2).invoke(B, s1, s2); }
";

const DEVICE: &str = "{\"rows\": 1, \"cols\": 1, \"slots\": [{\"LUT\": 100000, \"FF\": 100000}]}";

const DONE_AT_ONCE: &str =
    "module t_X ( input clk , input rst , output done ) ; assign done = 1'd1 ; endmodule";

/// A command with its files.
pub fn asking(words: &'static [&'static str], source: &'static str, given: &'static str) -> Asked {
    Asked {
        words,
        source,
        given,
    }
}

/// The circuit of the sum.
pub fn building() -> Asked {
    asking(&["build", "r.cpp", "VecAdd"], VECADD, "")
}

/// Commands that read files and end well.
pub fn reading() -> [Asked; 7] {
    let sum = &["run", "r.cpp", "VecAdd", "d.json"];
    let by_two = &["run", "r.cpp", "VecAdd", "d.json", "--workers", "2"];
    let far = &["build", "r.cpp", "T", "--device", "d.json"];
    [
        asking(sum, VECADD, VECADD_DATA),
        asking(by_two, VECADD, VECADD_DATA),
        asking(&["run", "r.cpp", "T"], PATH, ""),
        building(),
        asking(far, PATH, DEVICE),
        asking(&["plan", "r.cpp", "T", "d.json"], PATH, DEVICE),
        asking(&["cosim", "r.cpp", "d.json"], DONE_AT_ONCE, "{}"),
    ]
}

/// Commands that end otherwise: a run that stops, a refused source, and words that are no command.
pub fn refused() -> [Asked; 3] {
    [
        asking(&["run", "r.cpp", "T"], CROSSING_STOPS, ""),
        asking(&["run", "r.cpp", "T"], "void P(", ""),
        asking(&["run"], "", ""),
    ]
}
