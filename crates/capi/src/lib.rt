// The calls of the line fitter for C and everything that speaks C, declared in include/vengutari.h: each is its topic's call under a name
// of its own, with the same contract. A call takes numbers and buffers with their lengths, and returns 0, the code of a refusal, or 255 for
// a buffer of the wrong length. What it answers goes into lent memory, which a refusal leaves as it is.
#![tactic(auto)]

ghost use Rattle.std.specs.Prelude.{◌≡◌};
ghost use Rattle.beacon.specs.Beacon.{store_after};
ghost use Rattle.c_boundary.specs.Boundary.{model_of, code_of, value_after, if_accepted};
ghost use Rattle.c_evaluation.specs.Calls.{loss_call, cost_call, bound_call};
ghost use Rattle.c_split.specs.Calls.{split_call, halves_after};
ghost use Rattle.c_labels.specs.Calls.{labels_call, labels_after};
ghost use Rattle.c_beacon_costs.specs.Calls.{cost_by_beacon_call, sums_after_call};
ghost use Rattle.c_search.specs.Calls.{search_call, vector_after, numbers_after, TableAfterCall, BoundsAfterCall, CertifiedCall};
ghost use Rattle.c_boards.specs.Calls as Boards;
ghost use Rattle.c_ranges.specs.Calls as rangeCalls;
ghost use Rattle.c_peel.specs.Calls as peeling;
ghost use Rattle.merge.specs.Merge.{output_after};
ghost use Rattle.c_stores.specs.Calls.{merge_call, take_in_call};
ghost use Rattle.sharing.specs.Sharing.{SharedTable, SharedBounds};
ghost use Rattle.c_windows.specs.Calls.{windows_call, searches_of_call, out_after_call, CertifiedWindows};
ghost use Rattle.registers.specs.Registers.{cleared};
ghost use Rattle.c_bus.specs.Calls.{registers_call, read_call, registers_after_write, TableAfterWrite, BoundsAfterWrite, CertifiedWrite};
ghost use Rattle.c_jobs.specs.Calls.{read_job_call, job_numbers_after, corners_after, start_after, write_job_call, job_record_after};
ghost use Rattle.c_answers.specs.Calls.{read_answer_call, answer_vector_after, answer_numbers_after, write_answer_call, answer_record_after};
ghost use Rattle.c_lines.specs.Calls.{write_line_call, patterns_after, read_line_call, coordinates_after};

// The loss of a residual e.
#[unsafe(no_mangle)]
pub extern "C" fn vengutari_loss(p: u8, eps: u32, e: i64, value: &mut u64) -> u32
    ensures code { result ≡ code_of (loss_call p eps e) }
    ensures value { value.new ≡ value_after (loss_call p eps e) value.old }
{
    c_evaluation::loss(p, eps, e, value)
}

// The cost of a vector.
#[unsafe(no_mangle)]
pub extern "C" fn vengutari_cost(
    store: &[u8],
    n: u8,
    d: u8,
    scale: u8,
    p: u8,
    eps: u32,
    vector: &[i16],
    value: &mut u64,
) -> u32
    ensures code { result ≡ code_of (cost_call store.now (model_of n d scale p eps) vector.now) }
    ensures value { value.new
        ≡ value_after (cost_call store.now (model_of n d scale p eps) vector.now) value.old }
{
    c_evaluation::cost(store, n, d, scale, p, eps, vector, value)
}

// The bound of a box.
#[unsafe(no_mangle)]
pub extern "C" fn vengutari_bound(
    store: &[u8],
    n: u8,
    d: u8,
    scale: u8,
    p: u8,
    eps: u32,
    corners: &[i16],
    value: &mut u64,
) -> u32
    ensures code { result ≡ code_of (bound_call store.now (model_of n d scale p eps) corners.now) }
    ensures value { value.new
        ≡ value_after (bound_call store.now (model_of n d scale p eps) corners.now) value.old }
{
    c_evaluation::bound(store, n, d, scale, p, eps, corners, value)
}

// Splits one box; the left half goes into the first row of `halves`, the right one into the second.
#[unsafe(no_mangle)]
pub extern "C" fn vengutari_split(n: u8, d: u8, corners: &[i16], halves: &mut [i16]) -> u32
    ensures code { result ≡ code_of (split_call n d corners.now halves.old) }
    ensures halves { halves.new ≡ halves_after n d corners.now halves.old }
{
    c_split::split(n, d, corners, halves)
}

// One label a point into the front of `labels`; the value is their number.
#[unsafe(no_mangle)]
pub extern "C" fn vengutari_labels(
    store: &[u8],
    n: u8,
    d: u8,
    scale: u8,
    p: u8,
    eps: u32,
    vector: &[i16],
    labels: &mut [u8],
    value: &mut u64,
) -> u32
    ensures code { result
        ≡ code_of (labels_call store.now (model_of n d scale p eps) vector.now labels.old) }
    ensures value { value.new
        ≡ value_after (labels_call store.now (model_of n d scale p eps) vector.now labels.old)
        value.old }
    ensures labels { labels.new
        ≡ labels_after store.now (model_of n d scale p eps) vector.now labels.old }
{
    c_labels::labels(store, n, d, scale, p, eps, vector, labels, value)
}

// The cost of each group of 19 records into the front of `sums`; the value is the total.
#[unsafe(no_mangle)]
pub extern "C" fn vengutari_cost_by_beacon(
    store: &[u8],
    n: u8,
    d: u8,
    scale: u8,
    p: u8,
    eps: u32,
    vector: &[i16],
    sums: &mut [u64],
    value: &mut u64,
) -> u32
    ensures code { result
        ≡ code_of (cost_by_beacon_call store.now (model_of n d scale p eps) vector.now sums.old) }
    ensures value { value.new
        ≡ value_after (cost_by_beacon_call store.now (model_of n d scale p eps) vector.now sums.old)
        value.old }
    ensures sums { sums.new
        ≡ sums_after_call store.now (model_of n d scale p eps) vector.now sums.old }
{
    c_beacon_costs::cost_by_beacon(store, n, d, scale, p, eps, vector, sums, value)
}

// Searches a box with the rows of a lent table, with the bounds of open boxes in a lent list. The value is the kind of the answer; its
// vector and its numbers go into their buffers.
#[unsafe(no_mangle)]
pub extern "C" fn vengutari_search(
    store: &[u8],
    n: u8,
    d: u8,
    scale: u8,
    p: u8,
    eps: u32,
    t: u64,
    budget: u32,
    corners: &[i16],
    start: &[i16],
    table: &mut [i16],
    bounds: &mut [u64],
    vector: &mut [i16],
    numbers: &mut [u64],
    value: &mut u64,
) -> u32
    ensures code { result
        ≡ code_of (search_call store.now (model_of n d scale p eps) t budget corners.now start.now
        table.old bounds.old vector.old numbers.old) }
    ensures value { value.new
        ≡ value_after (search_call store.now (model_of n d scale p eps) t budget corners.now start.now
        table.old bounds.old vector.old numbers.old) value.old }
    ensures vector { vector.new
        ≡ vector_after store.now (model_of n d scale p eps) t budget corners.now start.now
        table.old bounds.old vector.old numbers.old }
    ensures numbers { numbers.new
        ≡ numbers_after store.now (model_of n d scale p eps) t budget corners.now start.now
        table.old bounds.old vector.old numbers.old }
    ensures table { TableAfterCall store.now (model_of n d scale p eps) t budget corners.now start.now
        table.old bounds.old vector.old numbers.old table.new }
    ensures bounds { BoundsAfterCall store.now (model_of n d scale p eps) t budget corners.now start.now
        table.old bounds.old vector.old numbers.old bounds.new }
    ensures certificate { result ≡ 0 →
        CertifiedCall store.now (model_of n d scale p eps) t budget corners.now start.now
        table.old bounds.old vector.old numbers.old value.new vector.new
        numbers.new }
{
    c_search::search(
        store, n, d, scale, p, eps, t, budget, corners, start, table, bounds, vector, numbers,
        value,
    )
}

// Searches each window of k records, h records apart, with the rows of a lent table and a lent list of bounds, each from the vector found
// before it. An answer record for each goes into the front of `out`; the value is their number.
#[unsafe(no_mangle)]
pub extern "C" fn vengutari_windows(
    store: &[u8],
    n: u8,
    d: u8,
    scale: u8,
    p: u8,
    eps: u32,
    t: u64,
    budget: u32,
    corners: &[i16],
    start: &[i16],
    k: usize,
    h: usize,
    table: &mut [i16],
    bounds: &mut [u64],
    out: &mut [u8],
    value: &mut u64,
) -> u32
    ensures code { result
        ≡ code_of (windows_call store.now (model_of n d scale p eps) t budget corners.now start.now k h
        table.old bounds.old out.old) }
    ensures value { value.new
        ≡ value_after (windows_call store.now (model_of n d scale p eps) t budget corners.now start.now k h
        table.old bounds.old out.old) value.old }
    ensures output { out.new
        ≡ out_after_call store.now (model_of n d scale p eps) t budget corners.now start.now k h
        table.old bounds.old out.old }
    ensures table { SharedTable
        (searches_of_call store.now (model_of n d scale p eps) t budget corners.now start.now k h
        table.old bounds.old out.old) table.old table.new }
    ensures bounds { SharedBounds
        (searches_of_call store.now (model_of n d scale p eps) t budget corners.now start.now k h
        table.old bounds.old out.old) bounds.old bounds.new }
    ensures certificate { result ≡ 0 →
        CertifiedWindows store.now (model_of n d scale p eps) t budget corners.now start.now k h
        table.old bounds.old out.old value.new out.new }
{
    c_windows::windows(
        store, n, d, scale, p, eps, t, budget, corners, start, k, h, table, bounds, out, value,
    )
}

// Searches the stores of 1 to 8 jobs in order, in one table, within one split budget. Each job's code, budget, vector and numbers go into
// their buffers.
#[unsafe(no_mangle)]
pub extern "C" fn vengutari_boards(
    count: u8,
    total: u32,
    jobs: &[u8],
    stores: &[u8],
    lengths: &[u32],
    table: &mut [i16],
    bounds: &mut [u64],
    codes: &mut [u32],
    budgets: &mut [u32],
    vectors: &mut [i16],
    numbers: &mut [u64],
) -> u32
    ensures code { result
        ≡ code_of (Boards.boards_call count total jobs.now stores.now lengths.now table.old
        bounds.old codes.old budgets.old vectors.old numbers.old) }
    ensures codes { codes.new
        ≡ Boards.codes_after count total jobs.now stores.now lengths.now table.old
        bounds.old codes.old budgets.old vectors.old numbers.old }
    ensures budgets { budgets.new
        ≡ Boards.budgets_after count total jobs.now stores.now lengths.now table.old
        bounds.old codes.old budgets.old vectors.old numbers.old }
    ensures vectors { vectors.new
        ≡ Boards.vectors_after count total jobs.now stores.now lengths.now table.old
        bounds.old codes.old budgets.old vectors.old numbers.old }
    ensures numbers { numbers.new
        ≡ Boards.numbers_after count total jobs.now stores.now lengths.now table.old
        bounds.old codes.old budgets.old vectors.old numbers.old }
    ensures table { Boards.TableAfterCall count total jobs.now stores.now lengths.now table.old
        bounds.old codes.old budgets.old vectors.old numbers.old
        table.new }
    ensures bounds { Boards.BoundsAfterCall count total jobs.now stores.now lengths.now table.old
        bounds.old codes.old budgets.old vectors.old numbers.old
        bounds.new }
    ensures certificate { result ≡ 0 →
        Boards.CertifiedCall count total jobs.now stores.now lengths.now table.old
        bounds.old codes.old budgets.old vectors.old numbers.old
        codes.new budgets.new vectors.new numbers.new }
{
    c_boards::boards(
        count, total, jobs, stores, lengths, table, bounds, codes, budgets, vectors, numbers,
    )
}

// Finds the range of every coefficient, with the rows of a lent table. The value is the kind of the answer; the bits of the ends, the case
// of each coordinate and the numbers go into their buffers.
#[unsafe(no_mangle)]
pub extern "C" fn vengutari_ranges(
    store: &[u8],
    n: u8,
    d: u8,
    scale: u8,
    p: u8,
    eps: u32,
    budget: u32,
    ceiling: u64,
    corners: &[i16],
    start: &[i16],
    table: &mut [i16],
    patterns: &mut [u32],
    cases: &mut [u8],
    numbers: &mut [u64],
    value: &mut u64,
) -> u32
    ensures code { result
        ≡ code_of (rangeCalls.ranges_call store.now (model_of n d scale p eps) budget ceiling corners.now
        start.now table.old patterns.old cases.old numbers.old) }
    ensures value { value.new
        ≡ value_after (rangeCalls.ranges_call store.now (model_of n d scale p eps) budget ceiling corners.now
        start.now table.old patterns.old cases.old numbers.old)
        value.old }
    ensures patterns { patterns.new
        ≡ rangeCalls.patterns_after store.now (model_of n d scale p eps) budget ceiling corners.now
        start.now table.old patterns.old cases.old numbers.old }
    ensures cases { cases.new
        ≡ rangeCalls.cases_after store.now (model_of n d scale p eps) budget ceiling corners.now start.now
        table.old patterns.old cases.old numbers.old }
    ensures numbers { numbers.new
        ≡ rangeCalls.numbers_after store.now (model_of n d scale p eps) budget ceiling corners.now start.now
        table.old patterns.old cases.old numbers.old }
    ensures table { rangeCalls.TableAfterCall store.now (model_of n d scale p eps) budget ceiling corners.now start.now
        table.old patterns.old cases.old numbers.old table.new }
    ensures ranges { result ≡ 0 →
        rangeCalls.CertifiedCall store.now (model_of n d scale p eps) budget ceiling corners.now start.now
        table.old patterns.old cases.old numbers.old value.new
        patterns.new cases.new numbers.new }
{
    c_ranges::ranges(
        store, n, d, scale, p, eps, budget, ceiling, corners, start, table, patterns, cases,
        numbers, value,
    )
}

// Peels one line after another, `limit` of them at most, in one table and list of bounds. The value is the number of rounds; their vectors
// and numbers go into their buffers, round after round, and a label for each record into the front of `labels`.
#[unsafe(no_mangle)]
pub extern "C" fn vengutari_peel(
    store: &[u8],
    n: u8,
    d: u8,
    scale: u8,
    p: u8,
    eps: u32,
    t: u64,
    budget: u32,
    corners: &[i16],
    start: &[i16],
    limit: u8,
    table: &mut [i16],
    bounds: &mut [u64],
    labels: &mut [u8],
    vectors: &mut [i16],
    numbers: &mut [u64],
    value: &mut u64,
) -> u32
    ensures code { result
        ≡ code_of (peeling.peel_call store.now (model_of n d scale p eps) t budget corners.now start.now limit
        table.old bounds.old labels.old vectors.old numbers.old) }
    ensures value { value.new
        ≡ value_after
        (peeling.peel_call store.now (model_of n d scale p eps) t budget corners.now start.now limit
        table.old bounds.old labels.old vectors.old numbers.old)
        value.old }
    ensures vectors { vectors.new
        ≡ peeling.vectors_after store.now (model_of n d scale p eps) t budget corners.now start.now limit
        table.old bounds.old labels.old vectors.old numbers.old }
    ensures numbers { numbers.new
        ≡ peeling.numbers_after store.now (model_of n d scale p eps) t budget corners.now start.now limit
        table.old bounds.old labels.old vectors.old numbers.old }
    ensures labels { labels.new
        ≡ peeling.labels_after_call store.now (model_of n d scale p eps) t budget corners.now start.now limit
        table.old bounds.old labels.old vectors.old numbers.old }
    ensures table { peeling.TableAfterCall store.now (model_of n d scale p eps) t budget corners.now start.now limit
        table.old bounds.old labels.old vectors.old numbers.old
        table.new }
    ensures bounds { peeling.BoundsAfterCall store.now (model_of n d scale p eps) t budget corners.now start.now limit
        table.old bounds.old labels.old vectors.old numbers.old
        bounds.new }
    ensures peeling { result ≡ 0 →
        peeling.PeelingCall store.now (model_of n d scale p eps) t budget corners.now start.now limit
        table.old bounds.old labels.old vectors.old numbers.old
        value.new vectors.new numbers.new labels.new }
{
    c_peel::peel(
        store, n, d, scale, p, eps, t, budget, corners, start, limit, table, bounds, labels,
        vectors, numbers, value,
    )
}

// Takes a beacon in behind the first `mark` bytes of the store; the value is the new mark.
#[unsafe(no_mangle)]
pub extern "C" fn vengutari_take_in(
    store: &mut [u8],
    mark: usize,
    beacon: &[u8],
    value: &mut u64,
) -> u32
    ensures code { result ≡ code_of (take_in_call store.old mark beacon.now) }
    ensures value { value.new
        ≡ value_after (take_in_call store.old mark beacon.now) value.old }
    ensures store { store.new ≡ store_after store.old mark beacon.now }
{
    c_stores::take_in(store, mark, beacon, value)
}

// Makes one store of two: the union of their records into the front of `out`; the value is its length in bytes.
#[unsafe(no_mangle)]
pub extern "C" fn vengutari_merge(
    first: &[u8],
    second: &[u8],
    out: &mut [u8],
    value: &mut u64,
) -> u32
    ensures code { result ≡ code_of (merge_call first.now second.now out.old) }
    ensures value { value.new
        ≡ value_after (merge_call first.now second.now out.old) value.old }
    ensures output { out.new ≡ output_after first.now second.now out.old }
{
    c_stores::merge(first, second, out, value)
}

// Reads the job record in the first 72 bytes.
#[unsafe(no_mangle)]
pub extern "C" fn vengutari_read_job(
    bytes: &[u8],
    numbers: &mut [u64],
    corners: &mut [i16],
    start: &mut [i16],
) -> u32
    ensures code { result
        ≡ code_of (read_job_call bytes.now numbers.old corners.old start.old) }
    ensures numbers { numbers.new
        ≡ job_numbers_after bytes.now numbers.old corners.old start.old }
    ensures corners { corners.new
        ≡ corners_after bytes.now numbers.old corners.old start.old }
    ensures start { start.new
        ≡ start_after bytes.now numbers.old corners.old start.old }
{
    c_jobs::read_job(bytes, numbers, corners, start)
}

// Writes a job record into the first 72 bytes.
#[unsafe(no_mangle)]
pub extern "C" fn vengutari_write_job(
    n: u8,
    d: u8,
    scale: u8,
    p: u8,
    eps: u32,
    t: u64,
    budget: u32,
    rows: u32,
    corners: &[i16],
    start: &[i16],
    bytes: &mut [u8],
) -> u32
    ensures code { result ≡ code_of (write_job_call corners.now start.now bytes.old) }
    ensures bytes { bytes.new
        ≡ job_record_after (model_of n d scale p eps) t budget rows corners.now start.now bytes.old }
{
    c_jobs::write_job(n, d, scale, p, eps, t, budget, rows, corners, start, bytes)
}

// Reads an answer record of 40 bytes.
#[unsafe(no_mangle)]
pub extern "C" fn vengutari_read_answer(
    bytes: &[u8],
    vector: &mut [i16],
    numbers: &mut [u64],
) -> u32
    ensures code { result ≡ code_of (read_answer_call bytes.now vector.old numbers.old) }
    ensures vector { vector.new ≡ answer_vector_after bytes.now vector.old numbers.old }
    ensures numbers { numbers.new ≡ answer_numbers_after bytes.now vector.old numbers.old }
{
    c_answers::read_answer(bytes, vector, numbers)
}

// Writes an answer record into the first 40 bytes.
#[unsafe(no_mangle)]
pub extern "C" fn vengutari_write_answer(
    vector: &[i16],
    cost: u64,
    bound: u64,
    count: u32,
    kind: u8,
    n: u8,
    d: u8,
    scale: u8,
    bytes: &mut [u8],
) -> u32
    ensures code { result ≡ code_of (write_answer_call vector.now cost bound count kind n d scale bytes.old) }
    ensures bytes { bytes.new
        ≡ answer_record_after vector.now cost bound count kind n d scale bytes.old }
{
    c_answers::write_answer(vector, cost, bound, count, kind, n, d, scale, bytes)
}

// Writes a line: the patterns of its four coefficients.
#[unsafe(no_mangle)]
pub extern "C" fn vengutari_write_line(
    d: u8,
    scale: u8,
    coordinates: &[i16],
    patterns: &mut [u32],
) -> u32
    ensures code { result ≡ code_of (write_line_call d scale coordinates.now patterns.old) }
    ensures patterns { patterns.new ≡ patterns_after d scale coordinates.now patterns.old }
{
    c_lines::write_line(d, scale, coordinates, patterns)
}

// Reads a line from the patterns of its four coefficients.
#[unsafe(no_mangle)]
pub extern "C" fn vengutari_read_line(
    d: u8,
    scale: u8,
    patterns: &[u32],
    coordinates: &mut [i16],
) -> u32
    ensures code { result ≡ code_of (read_line_call d scale coordinates.old patterns.now) }
    ensures coordinates { coordinates.new ≡ coordinates_after d scale coordinates.old patterns.now }
{
    c_lines::read_line(d, scale, patterns, coordinates)
}

// Resets the registers of the fitter on the data bus.
#[unsafe(no_mangle)]
pub extern "C" fn vengutari_reset(registers: &mut [u8]) -> u32
    ensures code { result ≡ code_of (registers_call registers.old) }
    ensures registers { registers.new
        ≡ if_accepted (registers_call registers.old) cleared registers.old }
{
    c_bus::reset(registers)
}

// Reads the register at an offset.
#[unsafe(no_mangle)]
pub extern "C" fn vengutari_read_register(registers: &[u8], offset: usize, value: &mut u64) -> u32
    ensures code { result ≡ code_of (read_call registers.now offset) }
    ensures value { value.new ≡ value_after (read_call registers.now offset) value.old }
{
    c_bus::read_register(registers, offset, value)
}

// Writes the register at an offset; where that is a run, it searches.
#[unsafe(no_mangle)]
pub extern "C" fn vengutari_write_register(
    registers: &mut [u8],
    offset: usize,
    value: u8,
    store: &[u8],
    table: &mut [i16],
    bounds: &mut [u64],
) -> u32
    ensures code { result ≡ code_of (registers_call registers.old) }
    ensures registers { registers.new
        ≡ registers_after_write registers.old offset value store.now table.old bounds.old }
    ensures table { TableAfterWrite registers.old offset value store.now table.old bounds.old
        table.new }
    ensures bounds { BoundsAfterWrite registers.old offset value store.now table.old bounds.old
        bounds.new }
    ensures certificate { result ≡ 0 →
        CertifiedWrite registers.old offset value store.now table.old bounds.old
        registers.new }
{
    c_bus::write_register(registers, offset, value, store, table, bounds)
}
