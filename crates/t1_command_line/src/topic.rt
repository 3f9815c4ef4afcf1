//! The meaning of a code: how it is found, and how it is printed.
ghost use Rattle.std.specs.Prelude.{◌≡◌, ◌≤◌, ◌==◌, ◌++◌, length, option_map, string_bytes, IfOk};
ghost use Rattle.std.specs.Prelude.{OnOk};
ghost use Rattle.std.specs.List.{position_or_len};
ghost use Rattle.t1_command_line.specs.Topics.{has_code, topic_in, topic_of, topic_line};
ghost use Rattle.t1_command_line.specs.Topics.{topics_section, other_sections_text, list_text};
ghost use Rattle.t1_command_line.specs.Topics.{topics_lines, before_space, whole_text as text_of};
ghost use Rattle.t1_command_line.specs.Topics.{explanation as explanation_of};
ghost use Rattle.t1_command_line.specs.Topics.{meaning as meaning_of};

use std::alloc::{AllocError, Global};

const SPACE: u8 = 32;

/// A code, a rule or a status, and its meaning.
#[derive(Clone, Copy)]
pub struct Topic {
    pub code: &'static str,
    /// What it means, in a few words.
    pub meaning: &'static str,
    /// What stands above the lines that cause it; empty where there are none.
    pub lead: &'static str,
    /// Lines of a source, a kerning file or a session that cause it, where lines can, each after a
    /// tab; then what it means at length, and what to do.
    pub text: &'static str,
    /// What is said of each of its kind; empty where there is nothing to say.
    pub note: &'static str,
}

/// Topics of one kind.
#[derive(Clone, Copy)]
pub struct TopicGroup {
    pub title: &'static str,
    pub topics: &'static [Topic],
}

/// Whether a topic has this code, in letters of either case.
#[tactic(auto, unfolding(crate::specs::Topics::has_code))]
fn has_code(topic: &Topic, code: &[u8]) -> bool
    ensures { result ≡ has_code topic.now code.now }
{
    topic.code.as_bytes().eq_ignore_ascii_case(code)
}

/// The first of the topics that has this code, in letters of either case.
fn find(topics: &'static [Topic], code: &[u8]) -> Option<&'static Topic>
    ensures { option_map (λ topic. topic.now) result ≡ topic_in topics.now code.now }
{
    for topic in topics {
        if has_code(topic, code) {
            return Some(topic);
        }
    }
    None
}

/// The first topic of the sections that has this code, in letters of either case.
fn find_in(sections: &[TopicGroup], code: &[u8]) -> Option<&'static Topic>
    ensures { option_map (λ topic. topic.now) result ≡ topic_of sections.now code.now }
{
    for section in sections {
        if let Some(topic) = find(section.topics, code) {
            return Some(topic);
        }
    }
    None
}

/// Adds a topic's line: its code and its meaning in a few words.
#[tactic(auto, unfolding(crate::specs::Topics::topic_line))]
fn push_line(text: &mut String, topic: &Topic) -> Result<(), AllocError>
    ensures { OnOk result (string_bytes text.new ≡ string_bytes text.old ++ topic_line topic.now) }
{
    text.push_str(topic.code)?;
    text.push_str(": ")?;
    text.push_str(topic.meaning)?;
    text.push_str("\n")
}

/// Adds the lines of topics, indented.
fn push_lines(text: &mut String, topics: &[Topic]) -> Result<(), AllocError>
    ensures { OnOk result
        (string_bytes text.new ≡ string_bytes text.old ++ topics_lines topics.now) }
{
    for topic in topics {
        text.push_str("  ")?;
        push_line(text, topic)?;
    }
    Ok(())
}

/// Adds a section's title, and the line of each of its topics.
#[tactic(auto, unfolding(crate::specs::Topics::topics_section))]
fn push_section(text: &mut String, section: &TopicGroup) -> Result<(), AllocError>
    ensures { OnOk result (string_bytes text.new ≡ string_bytes text.old ++ topics_section
        section.now) }
{
    text.push_str(section.title)?;
    text.push_str(":\n")?;
    push_lines(text, section.topics)
}

/// Adds sections, each after an empty line.
fn push_others(text: &mut String, sections: &[TopicGroup]) -> Result<(), AllocError>
    ensures { OnOk result (string_bytes text.new ≡ string_bytes text.old ++ other_sections_text
        sections.now) }
{
    for section in sections {
        text.push_str("\n")?;
        push_section(text, section)?;
    }
    Ok(())
}

/// A list of all topics of the sections, each with its meaning in a few words.
pub fn list(alloc: Global, sections: &[TopicGroup]) -> Result<String, AllocError>
    ensures { IfOk result (λ text. string_bytes text ≡ list_text sections.now) }
{
    let mut text = String::new(alloc);
    let Some((first, others)) = sections.split_first() else {
        return Ok(text);
    };
    push_section(&mut text, first)?;
    push_others(&mut text, others)?;
    Ok(text)
}

/// All that is to be said of a topic.
#[tactic(auto, unfolding(crate::specs::Topics::whole_text))]
fn whole_text(alloc: Global, topic: &Topic) -> Result<String, AllocError>
    ensures { IfOk result (λ text. string_bytes text ≡ text_of topic.now) }
{
    let mut text = String::new(alloc);
    push_line(&mut text, topic)?;
    text.push_str("\n")?;
    text.push_str(topic.lead)?;
    text.push_str(topic.text)?;
    text.push_str(topic.note)?;
    Ok(text)
}

/// How many bytes stand in front of the first space.
fn word_len(text: &[u8]) -> usize
    ensures within { result ≤ length text.now }
    ensures value { result ≡ position_or_len (λ byte. byte == 32) text.now }
{
    text.iter().take_while(|byte| **byte != SPACE).count()
}

/// The bytes in front of the first space.
fn before_space(text: &[u8]) -> &[u8]
    ensures { result.now ≡ before_space text.now }
{
    text.split_at(word_len(text)).0
}

/// What a code means in a few words; nothing where the sections don't have it.
pub fn meaning(sections: &[TopicGroup], code: &[u8]) -> &'static str
    ensures { result.now ≡ meaning_of sections.now code.now }
{
    match find_in(sections, code) {
        Some(topic) => topic.meaning,
        None => "",
    }
}

/// What is said of the code that a text begins with, in letters of either case, or nothing where
/// the sections don't have it; the list of all where no text is given.
pub fn explanation(
    alloc: Global,
    sections: &[TopicGroup],
    text: Option<&str>,
) -> Result<Option<String>, AllocError>
    ensures { IfOk result (λ said. option_map string_bytes said ≡ explanation_of sections.now
        (option_map (λ word. word.now) text.entry)) }
{
    let Some(text) = text else {
        return Ok(Some(list(alloc, sections)?));
    };
    match find_in(sections, before_space(text.as_bytes())) {
        Some(topic) => Ok(Some(whole_text(alloc, topic)?)),
        None => Ok(None),
    }
}
