// Which names are arrays and which are not, where the program itself says so.

use crate::calls::{
    Stretch, arguments, finding_at, kind_before, kind_behind, name_of, only_token, place_of,
    place_of_stretch,
};
use crate::definitions::{definition_at, is_defining, name_at};
use crate::finding::{Finding, Note, joined};
use crate::names::Names;
use awk_kinds::is_special;
use awk_lex::token::{BuiltIn, Keyword, Kind, Token};
use indexmap::IndexMap;
use std::alloc::{AllocError, Global};

/// How often kinds are handed on through calls.
const ROUNDS: usize = 16;

/// Where a variable is used as an array, and where as a value, by tokens.
#[derive(Clone, Copy)]
struct Uses {
    array: Option<usize>,
    value: Option<usize>,
}

/// How a token uses the name that it is.
#[derive(Clone, Copy)]
enum Use {
    Array,
    Value,
    /// As an argument: it is handed on as it is.
    Open,
}

/// A variable as the argument of a call.
#[derive(Drop)]
struct Passed {
    token: usize,
    variable: Vec<u8>,
    parameter: Vec<u8>,
}

/// An argument of a call that is no name alone.
#[derive(Drop)]
struct Computed {
    stretch: Stretch,
    parameter: Vec<u8>,
}

/// The variables of a program, each by the name of its function, a blank, and its own name.
#[derive(Drop)]
struct Variables {
    uses: IndexMap<Vec<u8>, Uses>,
    passed: Vec<Passed>,
    computed: Vec<Computed>,
}

/// The key of the variable that a name is at a token.
fn key_of(alloc: Global, names: &Names, at: usize, name: &[u8]) -> Result<Vec<u8>, AllocError> {
    match definition_at(&names.all, at) {
        Some(definition) if definition.names.contains(name) => {
            let function = name_at(names.tokens, definition.name);
            joined(alloc, &[function, b" ", name])
        }
        _ => joined(alloc, &[b" ", name]),
    }
}

/// How the name at a token is used, where it is no argument.
fn use_of(tokens: &[Token], at: usize) -> Use {
    match kind_behind(tokens, at, 1) {
        Some(Kind::OpenBracket) => return Use::Array,
        _ => {}
    }
    match kind_before(tokens, at, 1) {
        Some(Kind::Keyword(Keyword::In | Keyword::Delete)) => Use::Array,
        _ => Use::Value,
    }
}

/// The first token of an argument that is a name alone.
fn name_argument(tokens: &[Token], stretch: Stretch) -> Option<usize> {
    let token = only_token(tokens, stretch)?;
    match token.kind {
        Kind::Name(_) => Some(stretch.from),
        _ => None,
    }
}

impl Variables {
    fn new(alloc: Global) -> Variables {
        Variables {
            uses: IndexMap::new(alloc),
            passed: Vec::new(alloc),
            computed: Vec::new(alloc),
        }
    }

    fn uses_of(&self, key: &[u8]) -> Uses {
        match self.uses.get(key) {
            Some(uses) => *uses,
            None => Uses {
                array: None,
                value: None,
            },
        }
    }

    /// A variable is used so at a token. The first use stays.
    fn add(&mut self, key: Vec<u8>, how: Use, at: usize) -> Result<(), AllocError> {
        let mut uses = self.uses_of(&key);
        match how {
            Use::Array => uses.array = uses.array.or(Some(at)),
            Use::Value => uses.value = uses.value.or(Some(at)),
            Use::Open => {}
        }
        self.uses.insert(key, uses)?;
        Ok(())
    }

    /// The arguments of a call of a function of the program.
    fn add_call(
        &mut self,
        alloc: Global,
        names: &Names,
        at: usize,
        open: &mut Vec<usize>,
    ) -> Result<(), AllocError> {
        let function = name_at(names.tokens, at);
        let Some(definition) = names.definition_of(function) else {
            return Ok(());
        };
        for (count, stretch) in arguments(alloc, names.tokens, at)?.iter().enumerate() {
            let Some(parameter) = definition.parameters.get(count) else {
                continue;
            };
            let parameter = name_at(names.tokens, *parameter);
            let parameter = joined(alloc, &[function, b" ", parameter])?;
            match name_argument(names.tokens, *stretch) {
                Some(token) => {
                    open.push(token)?;
                    let name = name_at(names.tokens, token);
                    let variable = key_of(alloc, names, token, name)?;
                    self.passed.push(Passed {
                        token,
                        variable,
                        parameter,
                    })?;
                }
                None => self.computed.push(Computed {
                    stretch: *stretch,
                    parameter,
                })?,
            }
        }
        Ok(())
    }

    /// The array that `split` makes, and what `length` measures.
    fn add_built_in(
        &mut self,
        alloc: Global,
        names: &Names,
        at: usize,
        function: BuiltIn,
        open: &mut Vec<usize>,
    ) -> Result<(), AllocError> {
        let (place, how) = match function {
            BuiltIn::Split => (1, Use::Array),
            BuiltIn::Length => (0, Use::Open),
            _ => return Ok(()),
        };
        let arguments = arguments(alloc, names.tokens, at)?;
        let Some(stretch) = arguments.get(place) else {
            return Ok(());
        };
        let Some(token) = name_argument(names.tokens, *stretch) else {
            return Ok(());
        };
        open.push(token)?;
        let key = key_of(alloc, names, token, name_at(names.tokens, token))?;
        self.add(key, how, token)
    }

    /// What the arguments of calls are used as, and the tokens of those.
    fn add_arguments(&mut self, alloc: Global, names: &Names) -> Result<Vec<usize>, AllocError> {
        let mut open = Vec::new(alloc);
        for (at, token) in names.tokens.iter().enumerate() {
            match &token.kind {
                Kind::Called(_) if !is_defining(names.tokens, at) => {
                    self.add_call(alloc, names, at, &mut open)?;
                }
                Kind::BuiltIn(function) => {
                    self.add_built_in(alloc, names, at, *function, &mut open)?;
                }
                _ => {}
            }
        }
        open.sort_unstable();
        Ok(open)
    }

    /// What all names but those arguments are used as.
    fn add_names(
        &mut self,
        alloc: Global,
        names: &Names,
        arguments: &[usize],
    ) -> Result<(), AllocError> {
        for (at, token) in names.tokens.iter().enumerate() {
            let Kind::Name(name) = &token.kind else {
                continue;
            };
            if is_parameter_list(names, at) || arguments.binary_search(&at).is_ok() {
                continue;
            }
            let key = key_of(alloc, names, at, name.as_slice())?;
            self.add(key, use_of(names.tokens, at), at)?;
        }
        Ok(())
    }

    /// Hands on through one call that its parameter is an array, or that its argument is.
    fn hand_on(&mut self, alloc: Global, passed: &Passed) -> Result<(), AllocError> {
        let parameter = self.uses_of(&passed.parameter);
        let variable = self.uses_of(&passed.variable);
        if parameter.array.is_some() && variable.array.is_none() {
            let key = passed.variable.as_slice().to_vec(alloc)?;
            self.add(key, Use::Array, passed.token)?;
        }
        if parameter.array.is_none() && parameter.value.is_some() && variable.value.is_none() {
            let key = passed.variable.as_slice().to_vec(alloc)?;
            self.add(key, Use::Value, passed.token)?;
        }
        Ok(())
    }

    /// Hands on the kinds of parameters through all calls, a few times.
    fn hand_all_on(&mut self, alloc: Global) -> Result<(), AllocError> {
        for _ in 0..ROUNDS {
            let passed = std::mem::replace(&mut self.passed, Vec::new(alloc));
            for one in passed.as_slice() {
                self.hand_on(alloc, one)?;
            }
            self.passed = passed;
        }
        Ok(())
    }

    fn is_array(&self, key: &[u8]) -> bool {
        is_own_array(key) || self.uses_of(key).array.is_some()
    }

    /// A variable that is used against what it is.
    fn misused(&self, alloc: Global, names: &Names) -> Result<Option<Finding>, AllocError> {
        for (key, uses) in &self.uses {
            if let (Some(array), Some(value)) = (uses.array, uses.value) {
                return mixed_finding(alloc, names.tokens, array, value);
            }
            if let Some(array) = uses.array {
                if is_own_value(key.as_slice()) {
                    let told = b" is a value of awk's own, and no array";
                    return named_finding(alloc, names.tokens, array, told, OWN_ADVICE);
                }
            }
            if let Some(value) = uses.value {
                if is_own_array(key.as_slice()) {
                    let told = b" is an array of awk's own, and no value";
                    return named_finding(alloc, names.tokens, value, told, OWN_ADVICE);
                }
            }
        }
        Ok(None)
    }

    /// An array that is passed where the function uses none, or another argument where it uses one.
    fn mispassed(&self, alloc: Global, names: &Names) -> Result<Option<Finding>, AllocError> {
        for passed in self.passed.as_slice() {
            if self.is_array(&passed.variable) && !self.is_array(&passed.parameter) {
                let told = b" is an array, and the function uses none here";
                return named_finding(alloc, names.tokens, passed.token, told, UNUSED_ADVICE);
            }
        }
        for computed in self.computed.as_slice() {
            if self.is_array(&computed.parameter) {
                let place = place_of_stretch(names.tokens, computed.stretch);
                let message = [b": the function takes the name of an array here".as_slice()];
                let advice = b"pass the name of an array, as split(\"\", a) makes an empty one";
                return Ok(Some(Finding::new(alloc, place, &message, advice)?));
            }
        }
        Ok(None)
    }
}

const OWN_ADVICE: &[u8] = b"give yours another name";

const UNUSED_ADVICE: &[u8] = b"in the function say that it is one: if (0) p[1]";

/// Whether a key is that of an array of awk's own.
fn is_own_array(key: &[u8]) -> bool {
    key == b" ARGV".as_slice() || key == b" ENVIRON".as_slice()
}

/// Whether a key is that of a variable of awk's own that is no array.
fn is_own_value(key: &[u8]) -> bool {
    match key {
        [b' ', name @ ..] => is_special(name) && !is_own_array(key),
        _ => false,
    }
}

/// What is told of the name at a token.
fn named_finding(
    alloc: Global,
    tokens: &[Token],
    at: usize,
    told: &[u8],
    advice: &[u8],
) -> Result<Option<Finding>, AllocError> {
    match tokens.get(at) {
        Some(token) => {
            let message = [b": ".as_slice(), name_of(token).unwrap_or(b""), told];
            Ok(Some(finding_at(alloc, token, &message, advice)?))
        }
        None => Ok(None),
    }
}

/// Whether a token stands in the list of a function's parameters, or is its name.
fn is_parameter_list(names: &Names, at: usize) -> bool {
    match definition_at(&names.all, at) {
        Some(definition) => match definition.parameters.last() {
            Some(last) => at <= *last,
            None => definition.name == at,
        },
        None => false,
    }
}

/// What is told of a variable that is an array at one token and a value at another.
fn mixed_finding(
    alloc: Global,
    tokens: &[Token],
    array: usize,
    value: usize,
) -> Result<Option<Finding>, AllocError> {
    let Some(token) = tokens.get(array.max(value)) else {
        return Ok(None);
    };
    let Some(other) = tokens.get(array.min(value)) else {
        return Ok(None);
    };
    let (told, elsewhere) = if array < value {
        (
            b" is a value here, and an array elsewhere".as_slice(),
            b"it is an array here".as_slice(),
        )
    } else {
        (
            b" is an array here, and a value elsewhere".as_slice(),
            b"it is a value here".as_slice(),
        )
    };
    let name = name_of(token).unwrap_or(b"");
    let advice = b"give one of them another name";
    let mut finding = finding_at(alloc, token, &[b": ", name, told], advice)?;
    finding.other = Some(Note {
        place: place_of(other),
        message: elsewhere,
    });
    Ok(Some(finding))
}

/// The first argument of `split` that is no name where it takes an array.
fn no_array(alloc: Global, names: &Names) -> Result<Option<Finding>, AllocError> {
    for (at, token) in names.tokens.iter().enumerate() {
        if !matches!(token.kind, Kind::BuiltIn(BuiltIn::Split)) {
            continue;
        }
        let arguments = arguments(alloc, names.tokens, at)?;
        let Some(stretch) = arguments.get(1) else {
            continue;
        };
        if name_argument(names.tokens, *stretch).is_none() {
            let place = place_of_stretch(names.tokens, *stretch);
            let message = b": split takes the name of an array here".as_slice();
            let finding = Finding::new(alloc, place, &[message], b"write split(text, name)")?;
            return Ok(Some(finding));
        }
    }
    Ok(None)
}

/// K1: a variable that is used as an array and as a value, where the program itself says so.
pub(crate) fn mixed(alloc: Global, names: &Names) -> Result<Option<Finding>, AllocError> {
    let mut variables = Variables::new(alloc);
    let open = variables.add_arguments(alloc, names)?;
    variables.add_names(alloc, names, &open)?;
    variables.hand_all_on(alloc)?;
    if let Some(finding) = variables.misused(alloc, names)? {
        return Ok(Some(finding));
    }
    if let Some(finding) = variables.mispassed(alloc, names)? {
        return Ok(Some(finding));
    }
    no_array(alloc, names)
}
