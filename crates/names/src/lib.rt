//! Names of object identifiers.
#![tactic(auto)]

ghost use Rattle.std.specs.Prelude.{◌≡◌, ℕ, List, IfSome, IfNone};
ghost use Rattle.names.specs.Names.{HasLine, HasName, begins, line_of};
ghost use Rattle.names.specs.Names.{iso_table, joint_table, member_table, table_for};

mod table;

use crate::table::Table;

/// Returns the name on a line, if it is that of a number.
fn name_on<'a>(line: &'a str, number: &str) -> Option<&'a str>
    ensures some { IfSome result (λ name. line.now ≡ line_of number.now name.now) }
    ensures none { IfNone result ((name : List ℕ) → line.now ≡ line_of number.now name → ⊥) }
{
    let Some(rest) = line.strip_prefix(number) else {
        return None;
    };
    rest.strip_prefix(' ')
}

/// Returns the name that a line of a text gives a number.
fn name_in<'a>(text: &'a str, number: &str) -> Option<&'a str>
    ensures some { IfSome result (λ name. HasLine text.now number.now name.now) }
    ensures none { IfNone result ((name : List ℕ) → HasLine text.now number.now name → ⊥) }
{
    for line in text.lines() {
        if let Some(name) = name_on(line, number) {
            return Some(name);
        }
    }
    None
}

/// Returns whether a number begins with a prefix.
fn begins(number: &str, prefix: &str) -> bool
    ensures { result ≡ begins number.now prefix.now }
{
    number.starts_with(prefix)
}

/// Returns the table for what a number under 2 begins with.
fn joint_table(number: &str) -> Table
    ensures { result ≡ joint_table number.now }
{
    if begins(number, "2.5.4.") {
        Table::Attributes
    } else if begins(number, "2.5.") {
        Table::Directory
    } else if begins(number, "2.16.") {
        Table::Countries
    } else {
        Table::Joint
    }
}

/// Returns the table for what a number under 1.2 begins with.
fn member_table(number: &str) -> Table
    ensures { result ≡ member_table number.now }
{
    if begins(number, "1.2.840.113549.1.9.") {
        Table::Pkcs9
    } else if begins(number, "1.2.840.113549.") {
        Table::Rsa
    } else if begins(number, "1.2.840.") {
        Table::UnitedStates
    } else {
        Table::Members
    }
}

/// Returns the table for what a number under 1 begins with.
fn iso_table(number: &str) -> Table
    ensures { result ≡ iso_table number.now }
{
    if begins(number, "1.2.") {
        member_table(number)
    } else if begins(number, "1.3.6.1.5.5.7.") {
        Table::Pkix
    } else if begins(number, "1.3.6.1.4.") {
        Table::Enterprises
    } else if begins(number, "1.3.6.1.") {
        Table::Internet
    } else {
        Table::Organizations
    }
}

/// Returns the table for what a number begins with.
fn table_for(number: &str) -> Table
    ensures { result ≡ table_for number.now }
{
    if begins(number, "2.") {
        joint_table(number)
    } else if begins(number, "1.") {
        iso_table(number)
    } else {
        Table::Itu
    }
}

/// Returns the name of the object identifier with a number, such as `2.5.4.3`, or `None` if the
/// tables have none for it.
///
/// ```text
/// name_of("2.5.4.3")       // Some("commonName")
/// name_of("2.5.4.3.9")     // None
/// ```
pub fn name_of(number: &str) -> Option<&'static str>
    ensures some { IfSome result (λ name. HasName number.now name.now) }
    ensures none { IfNone result ((name : List ℕ) → HasName number.now name → ⊥) }
{
    name_in(table_for(number).text(), number)
}

#[cfg(test)]
mod tests {
    use super::*;
    use crate::table::Table;
    use std::test::Fail;

    /// All tables.
    const TABLES: [Table; 13] = [
        Table::Attributes,
        Table::Directory,
        Table::Countries,
        Table::Joint,
        Table::Pkcs9,
        Table::Rsa,
        Table::UnitedStates,
        Table::Members,
        Table::Pkix,
        Table::Enterprises,
        Table::Internet,
        Table::Organizations,
        Table::Itu,
    ];

    /// Returns how many lines of a table are found, each by its number.
    fn found_in(text: &str) -> (usize, usize) {
        let mut lines = 0usize;
        let mut found = 0usize;
        for line in text.lines() {
            lines = lines.wrapping_add(1);
            if let Some((number, name)) = line.split_once(' ') {
                if name_of(number) == Some(name) {
                    found = found.wrapping_add(1);
                }
            }
        }
        (lines, found)
    }

    #[test]
    fn each_line_is_found(rt: HostRuntime) -> Result<(), Fail> {
        let mut all = 0usize;
        for table in TABLES {
            let (lines, found) = found_in(table.text());
            assert_eq!(rt; found, lines);
            all = all.wrapping_add(lines);
        }
        assert_eq!(rt; all, 1403);
        Ok(())
    }

    #[test]
    fn others_have_no_name(rt: HostRuntime) -> Result<(), Fail> {
        assert!(rt; name_of("").is_none());
        assert!(rt; name_of("2.5.4.").is_none());
        assert!(rt; name_of("2.5.4.3.0").is_none());
        assert!(rt; name_of("3.5.4.3").is_none());
        Ok(())
    }
}
