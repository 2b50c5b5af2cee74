//! How answers show. Showing takes no memory, and each function says whether there was an answer to show: else memory was refused.
use crate::trees::Written;
use graphql_parser::Result as Answer;
use rows::{Shown, show, show_error};
use serde::Serialize;
use std::alloc::AllocError;
use std::fmt;

pub fn show_tree<D: Written + Drop>(shown: &mut Shown, answer: Answer<D>) -> bool {
    match answer {
        Ok(document) => write(shown, &document),
        Err(error) => show_error(shown, &error),
    }
}

pub fn show_checked(shown: &mut Shown, answer: Answer<()>) -> bool {
    match answer {
        Ok(()) => show(shown, &"accepted"),
        Err(error) => show_error(shown, &error),
    }
}

pub fn write<T: Written>(shown: &mut Shown, node: &T) -> bool {
    node.write(shown);
    true
}

pub fn show_found<T: fmt::Display + Drop>(
    shown: &mut Shown,
    found: Result<Option<T>, AllocError>,
) -> bool {
    match found {
        Ok(found) => {
            show_option(shown, "", found);
            true
        }
        Err(_) => false,
    }
}

pub fn show_option<T: fmt::Display + Drop>(shown: &mut Shown, before: &str, answer: Option<T>) {
    match answer {
        Some(answer) => shown.item(before, &answer),
        None => shown.item(before, &"none"),
    }
}

pub fn show_node<T: Written + Drop>(shown: &mut Shown, made: Result<T, AllocError>) -> bool {
    match made {
        Ok(node) => write(shown, &node),
        Err(_) => false,
    }
}

pub fn show_constant<T: Written + Drop>(
    shown: &mut Shown,
    found: Result<Option<T>, AllocError>,
) -> bool {
    match found {
        Ok(Some(constant)) => write(shown, &constant),
        Ok(None) => show(shown, &"none"),
        Err(_) => false,
    }
}

/// The tree of a copy, or, where there is no memory for one, that of the document that was copied.
pub fn show_copy<D: Written + Clone + Drop>(shown: &mut Shown, document: &D) -> bool {
    match document.clone() {
        Ok(copy) => write(shown, &copy),
        Err(_) => {
            document.write(shown);
            false
        }
    }
}

pub fn show_json<T: Serialize>(shown: &mut Shown, item: &T) -> bool {
    match serde_json::to_string(shown.alloc(), item).ok() {
        Some(json) => show(shown, &json),
        None => false,
    }
}
