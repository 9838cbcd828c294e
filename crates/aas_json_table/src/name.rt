// Each name of a member is spelled here, and once more as it stands in a text: in `key.rt` of `aas_json_write_members` and
// `stops.rt` of `aas_json_write_rows`. The same word may be another name elsewhere: of a parameter, of a segment of a path, or of a
// specific asset id.

pub const ADMINISTRATION: &str = "administration";

pub const ANNOTATIONS: &str = "annotations";

pub const ASSET_ADMINISTRATION_SHELLS: &str = "assetAdministrationShells";

pub const ASSET_INFORMATION: &str = "assetInformation";

pub const ASSET_KIND: &str = "assetKind";

pub const ASSET_TYPE: &str = "assetType";

pub const CATEGORY: &str = "category";

pub const CONCEPT_DESCRIPTIONS: &str = "conceptDescriptions";

pub const CONTENT_TYPE: &str = "contentType";

pub const CREATOR: &str = "creator";

pub const DEFAULT_THUMBNAIL: &str = "defaultThumbnail";

pub const DERIVED_FROM: &str = "derivedFrom";

pub const DESCRIPTION: &str = "description";

pub const DIRECTION: &str = "direction";

pub const DISPLAY_NAME: &str = "displayName";

pub const EMBEDDED_DATA_SPECIFICATIONS: &str = "embeddedDataSpecifications";

pub const ENTITY_TYPE: &str = "entityType";

pub const EXTENSIONS: &str = "extensions";

pub const EXTERNAL_SUBJECT_ID: &str = "externalSubjectId";

pub const FIRST: &str = "first";

pub const GLOBAL_ASSET_ID: &str = "globalAssetId";

pub const ID: &str = "id";

pub const ID_SHORT: &str = "idShort";

pub const INOUTPUT_VARIABLES: &str = "inoutputVariables";

pub const INPUT_VARIABLES: &str = "inputVariables";

pub const IS_CASE_OF: &str = "isCaseOf";

pub const KEYS: &str = "keys";

pub const KIND: &str = "kind";

pub const LANGUAGE: &str = "language";

pub const LAST_UPDATE: &str = "lastUpdate";

pub const MAX: &str = "max";

pub const MAX_INTERVAL: &str = "maxInterval";

pub const MESSAGE_BROKER: &str = "messageBroker";

pub const MESSAGE_TOPIC: &str = "messageTopic";

pub const MIN: &str = "min";

pub const MIN_INTERVAL: &str = "minInterval";

pub const MODEL_TYPE: &str = "modelType";

pub const NAME: &str = "name";

pub const OBSERVED: &str = "observed";

pub const ORDER_RELEVANT: &str = "orderRelevant";

pub const OUTPUT_VARIABLES: &str = "outputVariables";

pub const PATH: &str = "path";

pub const QUALIFIERS: &str = "qualifiers";

pub const REFERRED_SEMANTIC_ID: &str = "referredSemanticId";

pub const REFERS_TO: &str = "refersTo";

pub const REVISION: &str = "revision";

pub const SECOND: &str = "second";

pub const SEMANTIC_ID: &str = "semanticId";

pub const SEMANTIC_ID_LIST_ELEMENT: &str = "semanticIdListElement";

pub const SPECIFIC_ASSET_IDS: &str = "specificAssetIds";

pub const STATE: &str = "state";

pub const STATEMENTS: &str = "statements";

pub const SUBMODEL_ELEMENTS: &str = "submodelElements";

pub const SUBMODELS: &str = "submodels";

pub const SUPPLEMENTAL_SEMANTIC_IDS: &str = "supplementalSemanticIds";

pub const TEMPLATE_ID: &str = "templateId";

pub const TEXT: &str = "text";

pub const TYPE: &str = "type";

pub const TYPE_VALUE_LIST_ELEMENT: &str = "typeValueListElement";

pub const VALUE: &str = "value";

pub const VALUE_ID: &str = "valueId";

pub const VALUE_TYPE: &str = "valueType";

pub const VALUE_TYPE_LIST_ELEMENT: &str = "valueTypeListElement";

pub const VERSION: &str = "version";
