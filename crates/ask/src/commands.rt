// Which command the first word of a line names.

use crate::answer::Answer;
use crate::bad::Bad;
use crate::store::Store;
use crate::words::Words;
use crate::{cache, ids, merge, rows, table};

pub fn run(store: &mut Store, line: &str, answer: &mut Answer) -> Result<(), Bad> {
    let mut words = Words::new(line);
    match words.word()? {
        "row" => rows::row(store, words, answer),
        "show" => rows::show(store, words, answer),
        "sum" => rows::sum(store, words, answer),

        "new" => ids::new(words, answer),
        "none" => ids::none(words, answer),
        "fits" => ids::fits(words, answer),
        "first_too_large" => ids::first_too_large(store, words, answer),
        "is_power_within" => ids::is_power_within(words, answer),
        "low_product" => ids::low_product(words, answer),
        "is_valid_utf8_byte" => ids::is_valid_utf8_byte(words, answer),
        "from_byte_vocab" => ids::from_byte_vocab(store, words, answer),

        "shaped" => table::shaped(words, answer),
        "build" => table::build(store, words, answer),
        "rank" => table::rank(store, words, answer),
        "rank_by_table" => table::rank_by_table(store, words, answer),
        "rank_or_none" => table::rank_or_none(store, words, answer),
        "table" => table::table(store, words, answer),
        "table_rank" => table::table_rank(store, words, answer),

        "merge" => merge::merge(store, words, answer),
        "merge_bytes" => merge::merge_bytes(store, words, answer),

        "capacity" => cache::capacity(store, words, answer),
        "required_capacity" => cache::required_capacity(words, answer),
        "with_at_least" => cache::with_at_least(store, words, answer),
        "clear" => cache::clear(store, words, answer),
        "reset_to_capacity" => cache::reset_to_capacity(store, words, answer),
        "get_or_slot" => cache::get_or_slot(store, words, answer),
        "insert" => cache::insert(store, words, answer),
        "insert_at" => cache::insert_at(store, words, answer),
        "replace" => cache::replace(store, words, answer),
        "grow" => cache::grow(store, words, answer),
        "probe_view" => cache::probe_view(store, words, answer),
        "probe_pair" => cache::probe_pair(store, words, answer),

        _ => Err(Bad::UnknownCommand),
    }
}
