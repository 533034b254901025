//! Rows that were worked by hand, run over prefixes of addresses: their texts, and tables of them.
#![tactic(auto)]

#[cfg(test)]
mod ip_table_rows;
#[cfg(test)]
mod prefix_text_rows;
