mod community_lists;
mod growing_texts;
mod path_lists;
mod written_addresses;
mod written_numbers;
