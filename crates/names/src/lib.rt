// Names: the number of an element's name and of an attribute's name, each compared with fixed byte strings. Numbers are counted from 1, and 0
// is the answer for any other name. (No Option, since the definitions `element_number` and `attribute_number`, which contracts name, count so.)
#![tactic(auto)]

ghost use Rattle.std.specs.Prelude.{◌≡◌};
ghost use Rattle.names.specs.Names.{element_names, attribute_names, number_in, element_number, attribute_number};

// `match name` with these words as arms was tried for this list: it leaves a goal for each byte of each word, and the proof did not close.
// The number of an element that stands around variables, or 0.
fn outer_number(name: &[u8]) -> u8
    ensures { result ≡ number_in element_names 0 5 name.now }
{
    if scan::same(name, b"cdi") {
        return 1;
    }
    if scan::same(name, b"identification") {
        return 2;
    }
    if scan::same(name, b"acdi") {
        return 3;
    }
    if scan::same(name, b"segment") {
        return 4;
    }
    if scan::same(name, b"group") {
        return 5;
    }
    0
}

// The number of a variable, a map or a relation, or 0.
fn inner_number(name: &[u8]) -> u8
    ensures { result ≡ number_in element_names 5 6 name.now }
{
    if scan::same(name, b"int") {
        return 6;
    }
    if scan::same(name, b"string") {
        return 7;
    }
    if scan::same(name, b"eventid") {
        return 8;
    }
    if scan::same(name, b"float") {
        return 9;
    }
    if scan::same(name, b"map") {
        return 10;
    }
    if scan::same(name, b"relation") {
        return 11;
    }
    0
}

// The number of one of the first six elements that hold text only, or 0.
fn first_text_number(name: &[u8]) -> u8
    ensures { result ≡ number_in element_names 11 6 name.now }
{
    if scan::same(name, b"manufacturer") {
        return 12;
    }
    if scan::same(name, b"model") {
        return 13;
    }
    if scan::same(name, b"hardwareVersion") {
        return 14;
    }
    if scan::same(name, b"softwareVersion") {
        return 15;
    }
    if scan::same(name, b"name") {
        return 16;
    }
    if scan::same(name, b"description") {
        return 17;
    }
    0
}

// The number of one of the other six elements that hold text only, or 0.
fn other_text_number(name: &[u8]) -> u8
    ensures { result ≡ number_in element_names 17 6 name.now }
{
    if scan::same(name, b"repname") {
        return 18;
    }
    if scan::same(name, b"min") {
        return 19;
    }
    if scan::same(name, b"max") {
        return 20;
    }
    if scan::same(name, b"default") {
        return 21;
    }
    if scan::same(name, b"property") {
        return 22;
    }
    if scan::same(name, b"value") {
        return 23;
    }
    0
}

// The number of an element that has a row in the table, or 0.
fn table_number(name: &[u8]) -> u8
    ensures { result ≡ number_in element_names 0 11 name.now }
{
    let number = outer_number(name);
    if number == 0 {
        return inner_number(name);
    }
    number
}

// The number of an element that holds text only, or 0.
fn text_number(name: &[u8]) -> u8
    ensures { result ≡ number_in element_names 11 12 name.now }
{
    let number = first_text_number(name);
    if number == 0 {
        return other_text_number(name);
    }
    number
}

// The number of an element's name, or 0.
pub fn element_number(name: &[u8]) -> u8
    ensures { result ≡ element_number name.now }
{
    let number = table_number(name);
    if number == 0 {
        return text_number(name);
    }
    number
}

// The number of one of the first five attributes, or 0.
fn first_attribute_number(name: &[u8]) -> u8
    ensures { result ≡ number_in attribute_names 0 5 name.now }
{
    if scan::same(name, b"xmlns:xsi") {
        return 1;
    }
    if scan::same(name, b"xsi:noNamespaceSchemaLocation") {
        return 2;
    }
    if scan::same(name, b"fixed") {
        return 3;
    }
    if scan::same(name, b"var") {
        return 4;
    }
    if scan::same(name, b"space") {
        return 5;
    }
    0
}

// The number of one of the other five attributes, or 0.
fn other_attribute_number(name: &[u8]) -> u8
    ensures { result ≡ number_in attribute_names 5 5 name.now }
{
    if scan::same(name, b"origin") {
        return 6;
    }
    if scan::same(name, b"replication") {
        return 7;
    }
    if scan::same(name, b"offset") {
        return 8;
    }
    if scan::same(name, b"size") {
        return 9;
    }
    if scan::same(name, b"formatting") {
        return 10;
    }
    0
}

// The number of an attribute's name, or 0.
pub fn attribute_number(name: &[u8]) -> u8
    ensures { result ≡ attribute_number name.now }
{
    let number = first_attribute_number(name);
    if number == 0 {
        return other_attribute_number(name);
    }
    number
}
